// Names that stand at places of a text: where one of them stands among the others. For the names of declared events, which a
// reading holds by their places.

#![tactic(auto)]

ghost use Rattle.std.specs.Prelude.{◌≤◌};
ghost use Rattle.document.specs.Limits.{most_events};
ghost use Rattle.places.specs.NamesAt.{names_at, Inside, FoundAs};

use fields::Part;
use limits::MOST_EVENTS;

// Where the names of events stand in a text: of each event its part.
pub type Places = [Part; MOST_EVENTS];

// The names that stand at the first places of a text.
#[derive(Clone, Copy)]
pub struct Names<'a> {
    pub text: &'a [u8],
    pub places: &'a Places,
    pub count: usize,
    ghost inside: { Inside text.now places.now },
    ghost few: { count ≤ most_events },
}

impl Names<'_> {
    // Where a name stands first among them.
    #[inline(always)]
    pub fn find(&self, name: &[u8]) -> Option<usize>
        ensures { FoundAs name.now (names_at self.now.text.now self.now.count self.now.places.now) self.now.count result }
    {
        for k in 0..self.count {
            if name == self.places[k].of(self.text) {
                return Some(k);
            }
        }
        None
    }
}
