// The tables after an event, in place (document 01, "One event"): the kept rows that stay, that move and that are created, and
// the binding as seen. Above `moves`, `tables` and `settling`.
// Interior: `keep_rows` and `see`, where there is room for the outcome.

#![tactic(auto)]

ghost use Rattle.std.specs.Prelude.{◌≡◌};
ghost use Rattle.document.specs.Limits.{width};
ghost use Rattle.document.specs.OneEvent.{see, kept_after};
ghost use Rattle.document.specs.Tables.{seen_rows, kept_rows, seen_table, kept_table};
ghost use Rattle.moves.specs.Steps.{step_of, state_in};
ghost use Rattle.keeping.specs.Keeping.{SettleReady, SettledRow, Siftable, Sifted, GrowReady, GrownRow, Growable, Grown, Keepable, Seeable};

use limits::{KEPT_STRIDE, SEEN_STRIDE, WIDTH};
use moves::{Event, Known};
use ordered::Seen;

// Rows in place ---------------------------------------------------------------------------------------------------------

// Row i as it stays or moves in place, written after o rows; or it is dropped. Answers how many rows there are then.
fn settle(known: &Known, kept: &mut [u32], i: usize, o: usize, event: &Event) -> usize
    requires { SettleReady known.now.next known.now.states event.now.number i o event.now.binding kept.old }
    ensures { SettledRow known.now.next known.now.hopeful event.now.number i o event.now.binding kept.old kept.new result }
{
    let at = i * KEPT_STRIDE;
    if !settling::includes_at(kept, at, event.binding) {
        settling::stay(kept, i, o);
        return o + 1;
    }
    let s = kept[at + WIDTH];
    let to = known.next_state(s, event.number);
    settling::settle(known, kept, i, o, to)
}

// Every row, upwards. Answers how many are left.
fn sift(known: &Known, kept: &mut [u32], m: usize, event: &Event) -> usize
    requires { Siftable known.now.next known.now.states event.now.number m event.now.binding kept.old }
    ensures { Sifted known.now.next known.now.hopeful event.now.number m event.now.binding kept.old kept.new result }
{
    let mut o = 0;
    for i in 0..m {
        o = settle(known, kept, i, o, event);
    }
    o
}

// Rows created ----------------------------------------------------------------------------------------------------------

// Row i of m, below rows that are written: the combination that a new binding creates from it is put in above it. Answers how
// many rows there are then.
fn grow_row(known: &Known, seen: Seen, kept: &mut [u32], i: usize, m: usize, event: &Event) -> usize
    requires { GrowReady known.now.next known.now.states known.now.hopeful event.now.number seen.count i m event.now.binding seen.numbers.now kept.old event.now.fresh }
    ensures { GrownRow known.now.next known.now.hopeful event.now.number seen.entry.count i m event.now.binding seen.entry.numbers.now kept.old kept.new result }
{
    let at = i * KEPT_STRIDE;
    let k = bound::row_at(kept, at);
    if combos::includes(k, event.binding) || !event.creates(k, seen) {
        return m;
    }
    let to = known.next_state(kept[at + WIDTH], event.number);
    if !known.is_hopeful(to) {
        return m;
    }
    tables::enter(
        kept,
        at + KEPT_STRIDE,
        m - i - 1,
        combos::join(event.binding, k),
        to,
    );
    m + 1
}

// Every row, downwards: a combination that is created comes after the one that it is created from.
fn grow(known: &Known, seen: Seen, kept: &mut [u32], m: usize, event: &Event) -> usize
    requires { Growable known.now.next known.now.states known.now.hopeful event.now.number seen.count m event.now.binding seen.numbers.now kept.old event.now.fresh }
    ensures { Grown known.now.next known.now.hopeful event.now.number seen.entry.count m event.now.binding seen.entry.numbers.now kept.old kept.new result }
{
    let mut count = m;
    for i in (0..m).rev() {
        count = grow_row(known, seen, kept, i, count, event);
    }
    count
}

// Both tables -----------------------------------------------------------------------------------------------------------

// The kept rows after the event: those in place, then those created, then 0 where rows stood before. Rows that are dropped
// free their room before others are put in.
pub fn keep_rows(known: &Known, seen: Seen, kept: &mut [u32], m: usize, event: &Event)
    requires { Keepable known.now.next known.now.states known.now.hopeful event.now.number seen.count m event.now.binding seen.numbers.now kept.old event.now.fresh }
    ensures { kept.new ≡ kept_table (kept_after width (step_of known.now.next) event.now.number event.now.binding (seen_rows seen.entry.count seen.entry.numbers.now) (state_in known.now.hopeful) (kept_rows m kept.old)) kept.old }
{
    let mut count = sift(known, kept, m, event);
    if event.fresh {
        count = grow(known, seen, kept, count, event);
    }
    ordered::clear(kept, count * KEPT_STRIDE, m * KEPT_STRIDE);
}

// "Then b is seen".
pub fn see(seen: &mut [u32], n: usize, event: &Event)
    requires { Seeable n event.now.binding seen.old event.now.fresh }
    ensures { seen.new ≡ seen_table (see width event.now.binding (seen_rows n seen.old)) seen.old }
{
    if event.fresh {
        let at = ordered::place(seen, 0, SEEN_STRIDE, n, event.binding);
        ordered::insert_seen(seen, n * SEEN_STRIDE, at * SEEN_STRIDE, event.binding);
    }
}
