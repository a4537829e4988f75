// The property table as a plain value, and its check, refusal 11 (document 01, "The table"). The face: `Property` and `in_range`.
//
//     A table is taken exactly if `in_range` holds of it; its numbers may be any. `taken` gives it as one that is.

#![tactic(auto)]

ghost use Rattle.std.specs.Prelude.{◌≡◌, ◌≤◌, ◌<◌, ltb};
ghost use Rattle.std.specs.List.{list_all, range_with_len};
ghost use Rattle.document.specs.Limits.{width, most_events, most_states};
ghost use Rattle.document.specs.Property.{in_range};
ghost use Rattle.property.specs.Meaning.{meaning, counts_fit, sets_fit, row_fits, row_passes};

use limits::{EventSets, MOST_EVENTS, MOST_STATES, Transitions, Verdicts, WIDTH};
pub use taken::Taken;
use verdicts::{ALL_ASKED, Verdict};

mod taken;

pub const LAST_VERDICT: u8 = Verdict::Fail as u8;

// Counts, the parameters that each event binds (bit k for parameter k), the state that event e leads to from state s (at
// s * 16 + e), the verdict of each state, and the verdicts asked for. Entries past the counts mean nothing.
#[repr(C)]
#[derive(Clone, Copy)]
pub struct Property {
    pub parameters: usize,
    pub events: usize,
    pub states: usize,
    pub asked: u8,
    pub sets: EventSets,
    pub next: Transitions,
    pub verdicts: Verdicts,
}

// Whether each of some numbers is below a bound.
fn all_below(numbers: &[u8], bound: usize) -> bool
    ensures { result ≡ list_all (λ x. ltb x bound) numbers.now }
{
    numbers.iter().all(|&x| usize::from(x) < bound)
}

impl Property {
    // Whether the counts and the set of verdicts asked for are within their ranges.
    #[tactic(auto, unfolding(crate::specs::Meaning::counts_fit))]
    fn counts_fit(&self) -> bool
        ensures { result ≡ counts_fit self.now.parameters self.now.events self.now.states self.now.asked }
    {
        self.parameters <= WIDTH
            && (1..=MOST_EVENTS).contains(&self.events)
            && (1..=MOST_STATES).contains(&self.states)
            && (1..=ALL_ASKED).contains(&self.asked)
    }

    // Whether each event binds declared parameters alone.
    fn sets_fit(&self) -> bool
        requires { (self.now.events ≤ most_events) × (self.now.parameters ≤ width) }
        ensures { result ≡ sets_fit self.now.sets self.now.events self.now.parameters }
    {
        all_below(&self.sets[..self.events], 1 << self.parameters)
    }

    // Whether each event leads from state s to one of the states.
    fn row_fits(&self, s: usize) -> bool
        requires { (s < most_states) × (self.now.events ≤ most_events) }
        ensures { result ≡ row_fits self.now.next self.now.events self.now.states s }
    {
        let row = s * MOST_EVENTS;
        all_below(&self.next[row..row + self.events], self.states)
    }

    // Whether each state has a verdict, and each event leads from it to one of the states.
    fn rows_fit(&self) -> bool
        requires { (self.now.states ≤ most_states) × (self.now.events ≤ most_events) }
        ensures { result ≡ list_all (row_passes (meaning self.now)) (range_with_len 0 self.now.states) }
    {
        (0..self.states).all(|s| self.verdicts[s] <= LAST_VERDICT && self.row_fits(s))
    }
}

// Whether every count, set, state and verdict is within its range and a verdict is asked for. Where not, the table is
// refused 11. What stands past the counts is not looked at.
pub fn in_range(p: Property) -> bool
    ensures { result ≡ in_range (meaning p) }
{
    p.counts_fit() && p.sets_fit() && p.rows_fit()
}
