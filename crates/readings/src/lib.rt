// What declarations say (document 01, "The declarations"), as the crates above hold it: counts, sets, and where each event's name
// stands in the text, to be looked up by `places`. It is read by `declaring`.

#![tactic(auto)]

ghost use Rattle.std.specs.Prelude.{◌≡◌, ◌<◌};
ghost use Rattle.document.specs.Limits.{most_events};
ghost use Rattle.readings.specs.Readings.{none_read, one_more};

use fields::Part;
use limits::{EventSets, MOST_EVENTS};
use places::Places;

// What declarations say: the counts, for each event the set of its parameters, and where its name stands in the text.
#[derive(Clone, Copy)]
pub struct Reading {
    pub parameters: usize,
    pub events: usize,
    pub sets: EventSets,
    pub places: Places,
}

// A reading of no event.
pub fn none_read(parameters: usize) -> Reading
    ensures { result ≡ none_read parameters }
{
    Reading {
        parameters,
        events: 0,
        sets: [0; MOST_EVENTS],
        places: [Part { start: 0, size: 0 }; MOST_EVENTS],
    }
}

// A reading with an event more.
pub fn one_more(t: Reading, place: Part, set: u8) -> Reading
    requires { t.events < most_events }
    ensures { result ≡ one_more t place set }
{
    let at = t.events;
    let mut more = t;
    more.events = at + 1;
    more.sets[at] = set;
    more.places[at] = place;
    more
}
