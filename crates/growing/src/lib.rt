// The states of a pattern, grown (document 01, "The table"): sets of the numbers at which a reading can have stopped, numbered as
// found. Above `nexts`.

#![tactic(auto)]

ghost use Rattle.std.specs.Prelude.{◌≡◌, ◌≤◌, ◌<◌, eqb, length, position};
ghost use Rattle.document.specs.Limits.{most_events, most_states};
ghost use Rattle.growing.specs.Growing.{Numbers, Rows, Grows};

use limits::{MOST_EVENTS, MOST_STATES, NUMBERS, TRANSITIONS, Transitions};

// "before any event it is {0}"
const START: u32 = 1;

// The sets found, so many of them, and for each the states that the events lead to, 16 places a state.
#[derive(Clone, Copy)]
pub struct Grown {
    pub count: usize,
    pub sets: [u32; MOST_STATES],
    pub next: Transitions,
}

// The number of a set among those found, if it is one of them.
fn place(found: &[u32], set: u32) -> Option<usize>
    ensures { result ≡ position (λ x. eqb x set) found.now }
{
    found.iter().position(|&s| s == set)
}

impl Grown {
    // The number of a set, which joins those found unless it is one of them; none where it is a 65th.
    #[inline(always)]
    fn number(&mut self, set: u32) -> Option<usize>
        requires { self.old.count ≤ most_states }
        ensures { Numbers set self.old self.new result }
    {
        if let Some(k) = place(&self.sets[..self.count], set) {
            return Some(k);
        }
        let k = self.count;
        if k == MOST_STATES {
            return None;
        }
        self.sets[k] = set;
        self.count += 1;
        Some(k)
    }

    // The row of state i, whose events lead to the sets `to`: each gets its number; none as soon as one has none.
    #[inline(always)]
    fn row(&mut self, i: usize, to: &[u32]) -> Option<()>
        requires { (self.old.count ≤ most_states) × (i < most_states) × (length to.now ≤ most_events) }
        ensures { Rows to.now (length to.now) i self.old self.new result }
    {
        for e in 0..to.len() {
            let k = self.number(to[e])?;
            self.next[i * MOST_EVENTS + e] = k as u8;
        }
        Some(())
    }
}

// All states, found by going through them in number order and, within one, through the events in number order; none where
// there are more than 64.
#[inline(always)]
pub fn grow(
    after: &[u32; NUMBERS],
    named: &[u32; MOST_EVENTS],
    base: u32,
    events: usize,
) -> Option<Grown>
    requires { events ≤ most_events }
    ensures { Grows after.now named.now base events result }
{
    let mut sets = [0u32; MOST_STATES];
    sets[0] = START;
    let mut grown = Grown {
        count: 1,
        sets,
        next: [0u8; TRANSITIONS],
    };
    let mut i = 0;
    // Stays: each turn can add states to go through, so no range says the end.
    while i < grown.count {
        let to = nexts::moves(after, named, base, grown.sets[i]);
        grown.row(i, &to[..events])?;
        i += 1;
    }
    Some(grown)
}
