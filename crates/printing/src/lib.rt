// Printing a part of a log held in memory (document 01, "The program and its example"): rows into a session, and their lines
// into a lent text.
// The face: `print`, which takes every input, judges it in the order of the refusals, and on a refusal leaves every lent number
// and byte as it was. It stops at the log's end, or before a row whose lines might not fit in the text: the caller writes the
// text away and calls again with the offset, the row number and the counts answered. It leans on `printrow`.
//
//     print(declarations, p, &mut seen, n, &mut kept, m, &mut reports, log, at, 1, &mut text) prints the rows from `at` on.

#![tactic(auto)]

ghost use Rattle.std.specs.Prelude.{length};
ghost use Rattle.document.specs.Refusals.{refusal_of};
ghost use Rattle.property.specs.Meaning.{meaning};
ghost use Rattle.judge.specs.Sound.{session_of};
ghost use Rattle.printing.specs.Printing.{print_call, prints_to};
ghost use Rattle.printing.specs.Prints.{PrintLeaves};

use printrow::Printed;
use property::Property;
use refusals::Refusal;

// Takes rows of a log from an offset on into a session and writes the lines that the watch program prints for them.
// Stays: C calls it, so its parameters and its answer are C's.
pub fn print(
    declarations: &[u8],
    p: Property,
    seen: &mut [u32],
    n: usize,
    kept: &mut [u32],
    m: usize,
    reports: &mut [u32],
    log: &[u8],
    at: usize,
    number: usize,
    text: &mut [u8],
) -> Printed
    ensures { PrintLeaves (refusal_of (print_call declarations.now (meaning p) (session_of n m seen.old kept.old) reports.old log.now at number (length text.old))) (prints_to at number (session_of n m seen.old kept.old) reports.old (print_call declarations.now (meaning p) (session_of n m seen.old kept.old) reports.old log.now at number (length text.old))) text.old result seen.new kept.new reports.new text.new }
{
    let call = match judging::judge_call(declarations, p, seen, n, kept, m) {
        Ok(call) => call,
        Err(refusal) => return printrow::none_printed(refusal.number(), at, number, n, m),
    };
    if log.len() < at {
        return printrow::none_printed(Refusal::OffsetPastLog.number(), at, number, n, m);
    }
    let mut r = printrow::none_printed(refusals::TAKEN, at, number, n, m);
    // Stays: each row says where the next begins.
    while r.next < log.len() && rowlines::row_fits(text.len(), r.filled, r.kept, r.number) {
        r = printrow::print_row(&call, seen, kept, reports, log, text, r);
    }
    r
}
