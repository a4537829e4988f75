// An event whose binding is empty or seen already (document 01, "One event"): it creates no combination, so one pass over the
// kept rows moves those that include the binding in place and reports them, in order. The first rows are `inplace`'s, which
// at most events are all; the pass here goes on where a row is dropped or reported. Its promise is stated by the definitions
// of `keeping` and `writing`.
// Interior: `applies` and `advance`, for a session that was judged.

#![tactic(auto)]

ghost use Rattle.std.specs.Prelude.{◌≡◌, not, ◌&&◌, drop, ltb};
ghost use Rattle.document.specs.Tables.{seen_rows, report_room};
ghost use Rattle.moves.specs.Steps.{is_new};
ghost use Rattle.advance.specs.Advancing.{Advanceable, Passable, PassesOn, AdvancesOn, Advances};

use limits::{Combination, KEPT_STRIDE, WIDTH};
use moves::Known;
use ordered::Seen;

// Where a pass over the kept rows ended: the row that it stopped before, how many of the rows before that are left, and the
// reports made.
#[derive(Clone, Copy)]
pub struct Passed {
    pub row: usize,
    pub left: usize,
    pub reported: usize,
}

// The kept rows after the event, and its reports.
#[derive(Clone, Copy)]
pub struct Advanced {
    pub kept: usize,
    pub reported: usize,
}

// Whether the event creates nothing and there is room for a report of every kept row: then it cannot be refused.
pub fn applies(seen: Seen, m: usize, reports: &[u32], from: usize, b: Combination) -> bool
    ensures { result ≡ (not (ltb (report_room (drop from reports.now)) m) && not (is_new b (seen_rows seen.entry.count seen.entry.numbers.now))) }
{
    m <= foreseen::report_room(reports, from) && !moves::is_new(b, seen)
}

// All rows --------------------------------------------------------------------------------------------------------------

// Every row from row `low` on that may include the binding: those before it are moved already.
fn pass(
    known: &Known,
    kept: &mut [u32],
    m: usize,
    reports: &mut [u32],
    from: usize,
    e: usize,
    b: Combination,
    low: usize,
) -> Passed
    requires { Passable known.now.next known.now.verdicts known.now.states known.now.hopeful known.now.asked e m from b kept.old reports.old low }
    ensures { PassesOn known.now.next known.now.verdicts known.now.states known.now.hopeful known.now.asked e m from low b kept.old kept.new reports.old reports.new result }
{
    let first = b[0];
    let mut left = low;
    let mut reported = 0;
    for row in low..m {
        let at = row * KEPT_STRIDE;
        if settling::lies_past(kept, at, first) {
            return Passed {
                row,
                left,
                reported,
            };
        }
        if settling::includes_at(kept, at, b) {
            let to = known.next_state(kept[at + WIDTH], e);
            reported = settling::tell(known, kept, at, to, reports, from, reported);
            left = settling::settle(known, kept, row, left, to);
        } else {
            settling::stay(kept, row, left);
            left += 1;
        }
    }
    Passed {
        row: m,
        left,
        reported,
    }
}

// The rows from row `low` on, and those past the last that may include the binding: they move down by as many as were dropped.
fn pass_on(
    known: &Known,
    kept: &mut [u32],
    m: usize,
    reports: &mut [u32],
    from: usize,
    e: usize,
    b: Combination,
    low: usize,
) -> Advanced
    requires { Passable known.now.next known.now.verdicts known.now.states known.now.hopeful known.now.asked e m from b kept.old reports.old low }
    ensures { AdvancesOn known.now.next known.now.verdicts known.now.states known.now.hopeful known.now.asked e m from low b kept.old kept.new reports.old reports.new result }
{
    let a = pass(known, kept, m, reports, from, e, b, low);
    if a.left == a.row {
        return Advanced {
            kept: m,
            reported: a.reported,
        };
    }
    let end = m * KEPT_STRIDE;
    let after = settling::lower(kept, a.row * KEPT_STRIDE, a.left * KEPT_STRIDE, end);
    ordered::clear(kept, after, end);
    Advanced {
        kept: m - (a.row - a.left),
        reported: a.reported,
    }
}

// The kept rows after an event that creates nothing, and its reports from a report number on.
// Stays: the event's number and its binding are two parameters, here and in `inplace`, since `moves::Event` also says whether the
// binding is new, which nothing here asks.
pub fn advance(
    known: &Known,
    kept: &mut [u32],
    m: usize,
    reports: &mut [u32],
    from: usize,
    e: usize,
    b: Combination,
) -> Advanced
    requires { Advanceable known.now.next known.now.states e m from b kept.old reports.old }
    ensures { Advances known.now.next known.now.verdicts known.now.hopeful known.now.asked e m from b kept.old kept.new reports.old reports.new result }
{
    let w = inplace::move_in_place(known, kept, m, e, b);
    if w.row == w.end {
        return Advanced {
            kept: m,
            reported: 0,
        };
    }
    pass_on(known, kept, m, reports, from, e, b, w.row)
}
