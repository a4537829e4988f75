// One row of a log printed (document 01, "The program and its example"): into a session that was judged, and its lines where those
// before it end. Interior: for `printing`. It leans on `turns` and `rowlines`.

#![tactic(auto)]

ghost use Rattle.std.specs.Prelude.{◌≡◌};
ghost use Rattle.document.specs.Log.{row_at};
ghost use Rattle.judge.specs.Sound.{session_of};
ghost use Rattle.turns.specs.Stepping.{row_step_by, RowGoes};
ghost use Rattle.printrow.specs.RowPrints.{RowFits, RowPrinted};

use judging::Judged;

// What printing answers: the number of refusal, or 0; the offset and the number of the row that comes next; the rows of both
// tables that count now; and the bytes of the text that are filled.
// Stays: a struct of C, so the refusal is a number.
#[repr(C)]
#[derive(Clone, Copy)]
pub struct Printed {
    pub refusal: u8,
    pub next: usize,
    pub number: usize,
    pub seen: usize,
    pub kept: usize,
    pub filled: usize,
}

// Nothing printed, over a session of these counts: the row that comes next is this one.
pub fn none_printed(refusal: u8, at: usize, number: usize, n: usize, m: usize) -> Printed
    ensures { result ≡ record { refusal = refusal; next = at; number = number; seen = n; kept = m; filled = 0 } }
{
    Printed {
        refusal,
        next: at,
        number,
        seen: n,
        kept: m,
        filled: 0,
    }
}

// Takes the row at the next offset, and writes its lines where those before it end.
pub fn print_row(
    call: &Judged,
    seen: &mut [u32],
    kept: &mut [u32],
    reports: &mut [u32],
    log: &[u8],
    text: &mut [u8],
    r: Printed,
) -> Printed
    requires { RowGoes call.now r.seen r.kept seen.old kept.old × RowFits r log.now text.old }
    ensures { RowPrinted (row_step_by call.now 0 (session_of r.seen r.kept seen.old kept.old) reports.old (row_at log.now r.next)) call.now.reading.parameters log.now seen.old kept.old reports.old text.old r result seen.new kept.new reports.new text.new }
{
    let end = rows::row_end(log, r.next);
    let row = &log[r.next..end];
    let a = turns::step_row(call, seen, r.seen, kept, r.kept, reports, 0, row);
    let parameters = call.reading.parameters;
    let filled = rowlines::put_row(text, r.filled, parameters, r.number, reports, a);
    let after = rows::next_row(log, end);
    Printed {
        refusal: refusals::TAKEN,
        next: after,
        number: r.number + 1,
        seen: a.seen,
        kept: a.kept,
        filled,
    }
}
