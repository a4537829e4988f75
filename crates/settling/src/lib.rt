// One kept row of a pass over them (document 01, "One event"): whether it includes the binding, its report, and where it is
// written; and the rows after the last of the pass, moved down.
// Interior, for `keeping` and `advance`.

#![tactic(auto)]

ghost use Rattle.std.specs.Prelude.{◌+◌, ◌*◌, ◌<◌, ◌≤◌, ◌≡◌, not, ◌&&◌, length, get_or, eqb};
ghost use Rattle.document.specs.Limits.{width, kept_stride, most_states};
ghost use Rattle.document.specs.Combinations.{includes};
ghost use Rattle.document.specs.Tables.{numbers_at};
ghost use Rattle.ordered.specs.Writes.{Put};
ghost use Rattle.settling.specs.Settling.{ToldRow, MovedRow, Lowered};

use limits::{Combination, KEPT_STRIDE, WIDTH};
use moves::Known;

// Rows that include the binding -----------------------------------------------------------------------------------------

// Whether a row begins with another number than the binding, which binds the first parameter: rows ascend, so none from there
// on includes the binding. `first` is the binding's first number.
pub fn lies_past(kept: &[u32], at: usize, first: u32) -> bool
    requires { at < length kept.now }
    ensures { result ≡ (not (eqb first 0) && not (eqb (get_or kept.now at 0) first)) }
{
    first != 0 && kept[at] != first
}

// Whether the combination that a row begins with includes the binding, compared in place.
pub fn includes_at(kept: &[u32], at: usize, b: Combination) -> bool
    requires { at + width ≤ length kept.now }
    ensures { result ≡ includes (numbers_at width kept.now at) b }
{
    spans::agrees(kept, at, b, 0, WIDTH)
}

// One row ---------------------------------------------------------------------------------------------------------------

// The report of a row that moves to a state, if its verdict is asked for, after `count` reports. Answers how many there are
// then.
pub fn tell(
    known: &Known,
    kept: &[u32],
    at: usize,
    to: u32,
    reports: &mut [u32],
    from: usize,
    count: usize,
) -> usize
    requires { (to < most_states) × (at + width ≤ length kept.now) × (from + (count + 1) * kept_stride ≤ length reports.old) }
    ensures { ToldRow known.now.verdicts known.now.asked to from count (numbers_at width kept.now at) reports.old reports.new result }
{
    if !known.is_asked(to) {
        return count;
    }
    ordered::write_kept(
        reports,
        from + count * KEPT_STRIDE,
        bound::row_at(kept, at),
        known.verdict(to),
    );
    count + 1
}

// Row i, which moves to a state, after o rows; or it is dropped. Answers how many rows there are then.
pub fn settle(known: &Known, kept: &mut [u32], i: usize, o: usize, to: u32) -> usize
    requires { (to < most_states) × (o ≤ i) × ((i + 1) * kept_stride ≤ length kept.old) }
    ensures { MovedRow known.now.hopeful to i o kept.old kept.new result }
{
    if !known.is_hopeful(to) {
        return o;
    }
    stay(kept, i, o);
    kept[o * KEPT_STRIDE + WIDTH] = to;
    o + 1
}

// Row i as it is, after o rows.
pub fn stay(kept: &mut [u32], i: usize, o: usize)
    requires { (o ≤ i) × ((i + 1) * kept_stride ≤ length kept.old) }
    ensures { Put (o * kept_stride) (numbers_at width kept.old (i * kept_stride)) (get_or kept.old (i * kept_stride + width) 0) kept.old kept.new }
{
    if o != i {
        let at = i * KEPT_STRIDE;
        kept.copy_within(at..at + KEPT_STRIDE, o * KEPT_STRIDE);
    }
}

// The rows after the last ----------------------------------------------------------------------------------------------

// Moves the numbers from a place up to the end down to another place. Answers the place after them.
pub fn lower(t: &mut [u32], from: usize, to: usize, end: usize) -> usize
    requires { (to ≤ from) × (from ≤ end) × (end ≤ length t.old) }
    ensures { Lowered from to end t.old t.new result }
{
    t.copy_within(from..end, to);
    to + (end - from)
}
