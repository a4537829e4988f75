// An event's outcome written down (document 01, "One event"): the reports in the order of combinations, then both tables. Above
// `foreseen` and `keeping`.
// Interior: `write_down`, for an outcome that was foreseen and for which there is room.

#![tactic(auto)]

ghost use Rattle.writing.specs.Writing.{ReportReady, ReportedRow, Reportable, Reported, Tellable, WrittenDown};

use foreseen::Foreseen;
use limits::{Combination, KEPT_STRIDE, WIDTH};
use moves::{Event, Known};
use ordered::Seen;

// Kept row i: its report, if it moves and its new verdict is asked for, is put in among `count` reports from a report number
// on. Answers how many there are then.
fn report_row(
    known: &Known,
    seen: Seen,
    kept: &[u32],
    i: usize,
    event: &Event,
    reports: &mut [u32],
    from: usize,
    count: usize,
) -> usize
    requires { ReportReady known.now.next known.now.states known.now.asked event.now.number seen.count i from count event.now.binding seen.numbers.now kept.now reports.old event.now.fresh }
    ensures { ReportedRow known.now.next known.now.verdicts known.now.asked event.now.number seen.entry.count i from count event.now.binding seen.entry.numbers.now kept.now reports.old reports.new result }
{
    let at = i * KEPT_STRIDE;
    let k = bound::row_at(kept, at);
    if !event.moves(k, seen) {
        return count;
    }
    let to = known.next_state(kept[at + WIDTH], event.number);
    if !known.is_asked(to) {
        return count;
    }
    tables::enter(
        reports,
        from,
        count,
        combos::join(event.binding, k),
        known.verdict(to),
    );
    count + 1
}

// Every kept row. Answers how many reports there are.
fn report(
    known: &Known,
    seen: Seen,
    kept: &[u32],
    m: usize,
    event: &Event,
    reports: &mut [u32],
    from: usize,
) -> usize
    requires { Reportable known.now.next known.now.states known.now.asked event.now.number seen.count m from event.now.binding seen.numbers.now kept.now reports.old event.now.fresh }
    ensures { Reported known.now.next known.now.verdicts known.now.asked event.now.number seen.entry.count m from event.now.binding seen.entry.numbers.now kept.now reports.old reports.new result }
{
    let mut count = 0;
    for i in 0..m {
        count = report_row(known, seen, kept, i, event, reports, from, count);
    }
    count
}

// Writes an outcome down for which there is room: the reports, the kept rows, and the binding as seen.
pub fn write_down(
    known: &Known,
    seen: &mut [u32],
    n: usize,
    kept: &mut [u32],
    m: usize,
    reports: &mut [u32],
    from: usize,
    e: usize,
    b: Combination,
    o: Foreseen,
)
    requires { Tellable known.now.next known.now.states known.now.hopeful known.now.asked e n m from b seen.old kept.old reports.old o }
    ensures { WrittenDown known.now.next known.now.verdicts known.now.hopeful known.now.asked e n m from b seen.old kept.old reports.old seen.new kept.new reports.new }
{
    let event = Event {
        number: e,
        binding: b,
        fresh: o.fresh,
    };
    let before = Seen {
        numbers: seen,
        count: n,
    };
    if o.reported != 0 {
        report(known, before, kept, m, &event, reports, from);
    }
    keeping::keep_rows(known, before, kept, m, &event);
    keeping::see(seen, n, &event);
}
