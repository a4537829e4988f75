// Kept rows that an event with a binding seen before moves in place (document 01, "One event"): those that include the binding,
// as long as none of them is dropped or reported. That is all of them at most events. Only rows that may include it are looked
// at: rows ascend, so those that begin with its first number stand together.
// Interior: `move_in_place`, for a session that was judged. What it leaves over is `advance`'s.

#![tactic(auto)]

ghost use Rattle.spans.specs.Spans.{Movable, Spans};
ghost use Rattle.inplace.specs.InPlace.{WalksTo, MovedInPlace};

use limits::{Combination, KEPT_STRIDE, WIDTH};
use moves::Known;

// The row before which the moves stopped, and the row from which on none includes the binding. Where they are the same, all is
// done.
#[derive(Clone, Copy)]
pub struct InPlace {
    pub row: usize,
    pub end: usize,
}

// Moves the rows between two rows that include the binding, up to one that is dropped or reported. Answers the row that it
// stopped before.
fn walk(
    known: &Known,
    kept: &mut [u32],
    m: usize,
    e: usize,
    b: Combination,
    low: usize,
    end: usize,
) -> usize
    requires { Movable known.now.next known.now.states e m b kept.old × Spans m b kept.old low end }
    ensures { WalksTo known.now.next known.now.states known.now.hopeful known.now.asked e m b low end kept.old kept.new result }
{
    let last = spans::last_bound(b);
    let number = b[last];
    if number == 0 {
        return low;
    }
    // Stays: it goes from each row found to the next, by a search; a range would visit every row and test the number by hand.
    let mut i = spans::next_with(kept, low, end, last, number);
    while i < end {
        let at = i * KEPT_STRIDE;
        if spans::agrees(kept, at, b, 1, last) {
            let to = known.next_state(kept[at + WIDTH], e);
            if !known.is_hopeful(to) || known.is_asked(to) {
                return i;
            }
            kept[at + WIDTH] = to;
        }
        i = spans::next_with(kept, i + 1, end, last, number);
    }
    i
}

// Moves the first rows that include the binding, up to one that is dropped or reported.
pub fn move_in_place(known: &Known, kept: &mut [u32], m: usize, e: usize, b: Combination) -> InPlace
    requires { Movable known.now.next known.now.states e m b kept.old }
    ensures { MovedInPlace known.now.next known.now.states known.now.hopeful known.now.asked e m b kept.old kept.new result }
{
    let first = b[0];
    let low = spans::first_place(kept, m, first as usize);
    let end = spans::end_place(kept, m, first);
    let row = walk(known, kept, m, e, b, low, end);
    InPlace { row, end }
}
