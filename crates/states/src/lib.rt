// The table of a pattern (document 01, "The table"): from a pattern's shape to the table of its states with their verdicts. Above
// `sets` and `growing`. Interior: `table_of` is what a translator calls.
//
//     table_of(shape, events, TOTAL) is the table over so many events, or `None`: there are more than 64 states.

#![tactic(auto)]

ghost use Rattle.std.specs.Prelude.{◌≡◌, ◌≤◌, length};
ghost use Rattle.document.specs.Limits.{most_events, most_states};
ghost use Rattle.verdicts.specs.Verdicts.{number};
ghost use Rattle.states.specs.Tabling.{ends_from, verdict_from, verdicts_from, Tabled};

use limits::{MOST_STATES, Transitions, Verdicts};
use verdicts::Verdict;

// What each set holds besides: nothing in total matching.
pub const TOTAL: u32 = 0;

// The table of a pattern: how many states there are, the state that event e leads to from state s (at s * 16 + e), and the
// verdict of each state.
#[derive(Clone, Copy)]
pub struct Table {
    pub states: usize,
    pub next: Transitions,
    pub verdicts: Verdicts,
}

// Whether a reading that ends a word can have stopped at a number of a set.
fn ends(shape: &sets::Shape, set: u32) -> bool
    ensures { result ≡ ends_from shape.now.null shape.now.last set }
{
    bits::has(u64::from(set), 0) && shape.null || set & shape.last != 0
}

// The verdict of a set: match if it ends a word, fail if it holds nothing.
#[tactic(auto, unfolding(crate::specs::Tabling::verdict_from))]
fn verdict_of(shape: &sets::Shape, set: u32) -> Verdict
    ensures { number result ≡ verdict_from shape.now.null shape.now.last set }
{
    if ends(shape, set) {
        Verdict::Match
    } else if set == 0 {
        Verdict::Fail
    } else {
        Verdict::Undecided
    }
}

// The verdicts of some sets, and 0 past them.
fn verdicts(shape: &sets::Shape, sets: &[u32]) -> Verdicts
    requires { length sets.now ≤ most_states }
    ensures { result ≡ verdicts_from shape.now.null shape.now.last (length sets.now) sets.now }
{
    let mut found = [Verdict::Undecided as u8; MOST_STATES];
    for s in 0..sets.len() {
        found[s] = verdict_of(shape, sets[s]) as u8;
    }
    found
}

// The table of the pattern that has a shape, over so many events; none where there are more than 64 states.
#[inline(always)]
pub fn table_of(shape: sets::Shape, events: usize, base: u32) -> Option<Table>
    requires { events ≤ most_events }
    ensures { Tabled shape events base result }
{
    let mut after = shape.follow;
    after[0] = shape.first;
    let grown = growing::grow(&after, &shape.named, base, events)?;
    let verdicts = verdicts(&shape, &grown.sets[..grown.count]);
    Some(Table {
        states: grown.count,
        next: grown.next,
        verdicts,
    })
}
