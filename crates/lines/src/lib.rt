// The lines that the watch program prints, written into lent bytes (document 01, "The program and its example").
// Interior: a line is written at a place of the caller's text, and the place after it is given back. The caller sees to the
// room, by `lines_fit`, or by lending `MOST_REFUSAL` bytes. It leans on `lineparts`.
//
//     put_reports(text, at, 2, 7, &[5, 0, 0, 0, 1], 1) writes `7,match,5,` and a line end at the place `at`.

#![tactic(auto)]

ghost use Rattle.std.specs.Prelude.{◌≡◌, ◌++◌, ◌+◌, ◌*◌, ◌≤◌, length, leb};
ghost use Rattle.document.specs.Limits.{width, report_stride};
ghost use Rattle.document.specs.Printing.{line_end, report_line, report_lines};
ghost use Rattle.decimals.specs.Written.{Written};
ghost use Rattle.lineparts.specs.Lines.{refused_number_text, refused_number_line, most_line, most_refusal};

use decimals::MOST_DIGITS;
use limits::{REPORT_STRIDE, WIDTH};

// Bytes that the parts of a line can have at most, besides a row's number: a verdict and a value, each with its comma; `refused `
// and its number.
const MOST_VERDICT: usize = 6;

const MOST_VALUE: usize = 11;

const MOST_REFUSED: usize = 11;

// Bytes that the line of a report or of a refused row can have at most, and the only line of a refused call: what a caller must
// have room for. `most_line` and the like are made up in the same way.
pub const MOST_LINE: usize = MOST_DIGITS + MOST_VERDICT + WIDTH * MOST_VALUE + lineparts::LINE_END;

pub const MOST_REFUSAL: usize = MOST_REFUSED + lineparts::LINE_END;

// Whether so many lines fit, however long they are.
pub fn lines_fit(size: usize, at: usize, count: usize) -> bool
    ensures { result ≡ leb (at + count * most_line) size }
{
    at <= size && count <= (size - at) / MOST_LINE
}

// Writes the line of a report.
pub fn put_report(
    text: &mut [u8],
    at: usize,
    parameters: usize,
    row: usize,
    report: &[u32; REPORT_STRIDE],
) -> usize
    requires few { parameters ≤ width }
    requires room { at + most_line ≤ length text.old }
    ensures { Written at most_line (report_line parameters row report.now) text.old text.new result }
{
    let verdict_at = lineparts::put_row_number(text, at, row);
    let values_at = lineparts::put_verdict(text, verdict_at, report[WIDTH]);
    let end_at = lineparts::put_values(text, values_at, &report[..parameters]);
    lineparts::put_line_end(text, end_at)
}

// Writes the lines of a row's reports.
pub fn put_reports(
    text: &mut [u8],
    at: usize,
    parameters: usize,
    row: usize,
    reports: &[u32],
    count: usize,
) -> usize
    requires { (parameters ≤ width) × ((at + count * most_line ≤ length text.old) × (count * report_stride ≤ length reports.now)) }
    ensures { Written at (count * most_line) (report_lines parameters row count reports.now) text.old text.new result }
{
    let mut next = at;
    let (reports, _) = reports.as_chunks::<REPORT_STRIDE>();
    for report in &reports[..count] {
        next = put_report(text, next, parameters, row, report);
    }
    next
}

// Writes the line of a refused row.
pub fn put_refused(text: &mut [u8], at: usize, parameters: usize, row: usize, refusal: u8) -> usize
    requires { (parameters ≤ width) × (at + most_line ≤ length text.old) }
    ensures { Written at most_line (refused_number_line parameters row refusal) text.old text.new result }
{
    let comma_at = lineparts::put_row_number(text, at, row);
    let word_at = decimals::put_byte(text, comma_at, lineparts::COMMA);
    let values_at = lineparts::put_refused_text(text, word_at, refusal);
    let end_at = lineparts::put_commas(text, values_at, parameters);
    lineparts::put_line_end(text, end_at)
}

// Writes the only line of a refused call.
// Stays: a number, which is what is printed, and which the face answers to hosts in C.
pub fn put_refusal(text: &mut [u8], at: usize, refusal: u8) -> usize
    requires { at + most_refusal ≤ length text.old }
    ensures { Written at most_refusal (refused_number_text refusal ++ line_end) text.old text.new result }
{
    let end_at = lineparts::put_refused_text(text, at, refusal);
    lineparts::put_line_end(text, end_at)
}
