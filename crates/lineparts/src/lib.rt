// The parts of the lines that the watch program prints (document 01, "The program and its example"). Interior: a part is written
// at a place of the caller's text, and the place after it is given back. It leans on `decimals`.

#![tactic(auto)]

ghost use Rattle.std.specs.Prelude.{[], ◌∷◌, ◌+◌, ◌≤◌, length, take, drop, replicate};
ghost use Rattle.document.specs.Limits.{width};
ghost use Rattle.document.specs.Classes.{comma};
ghost use Rattle.document.specs.Printing.{decimal, line_end, word_of, with_commas, value_text};
ghost use Rattle.decimals.specs.Written.{Written};
ghost use Rattle.decimals.specs.Decimals.{most_digits};
ghost use Rattle.lineparts.specs.Lines.{values_text, refused_number_text, most_value, most_values, most_verdict, most_refused, line_end_bytes};

use verdicts::Verdict;

// Bytes of a line end.
pub const LINE_END: usize = 2;

// The verdict `match`, as a report has it; any other that is reported is `fail`.
const MATCH: u32 = Verdict::Match as u32;

pub const COMMA: u8 = b',';

// Writes the number of a row.
pub fn put_row_number(text: &mut [u8], at: usize, row: usize) -> usize
    requires { at + most_digits ≤ length text.old }
    ensures { Written at most_digits (decimal row) text.old text.new result }
{
    decimals::put_decimal(text, at, row)
}

// Writes a comma and a value, nothing where it is unbound.
fn put_value(text: &mut [u8], at: usize, x: u32) -> usize
    requires { at + most_value ≤ length text.old }
    ensures { Written at most_value (comma ∷ value_text x) text.old text.new result }
{
    let next = decimals::put_byte(text, at, COMMA);
    if x == 0 {
        next
    } else {
        decimals::put_decimal(text, next, x as usize)
    }
}

// Writes the values of a report.
pub fn put_values(text: &mut [u8], at: usize, values: &[u32]) -> usize
    requires few { length values.now ≤ width }
    requires room { at + most_values ≤ length text.old }
    ensures { Written at most_values (values_text values.now) text.old text.new result }
{
    let mut next = at;
    for &x in values {
        next = put_value(text, next, x);
    }
    next
}

// Writes a comma and the verdict's word.
pub fn put_verdict(text: &mut [u8], at: usize, verdict: u32) -> usize
    requires { at + most_verdict ≤ length text.old }
    ensures { Written at most_verdict (comma ∷ word_of verdict) text.old text.new result }
{
    match verdict {
        MATCH => decimals::put_bytes(text, at, b",match"),
        _ => decimals::put_bytes(text, at, b",fail"),
    }
}

// Writes the commas of values that are all empty.
pub fn put_commas(text: &mut [u8], at: usize, count: usize) -> usize
    requires { at + count ≤ length text.old }
    ensures { Written at count (with_commas (replicate count [])) text.old text.new result }
{
    let end = at + count;
    text[at..end].fill(COMMA);
    end
}

// Writes `refused`, a space and the number.
pub fn put_refused_text(text: &mut [u8], at: usize, refusal: u8) -> usize
    requires { at + most_refused ≤ length text.old }
    ensures { Written at most_refused (refused_number_text refusal) text.old text.new result }
{
    let next = decimals::put_bytes(text, at, b"refused ");
    decimals::put_decimal(text, next, refusal as usize)
}

pub fn put_line_end(text: &mut [u8], at: usize) -> usize
    requires { at + line_end_bytes ≤ length text.old }
    ensures { Written at line_end_bytes line_end text.old text.new result }
{
    decimals::put_bytes(text, at, b"\r\n")
}
