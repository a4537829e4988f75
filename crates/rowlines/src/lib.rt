// The lines of one row (document 01, "The program and its example"): whether they are sure to fit, and writing them by what the
// row's step answered. Interior, for `printing`.

#![tactic(auto)]

ghost use Rattle.std.specs.Prelude.{◌≡◌, length};
ghost use Rattle.decimals.specs.Written.{Written};
ghost use Rattle.rowlines.specs.RowLines.{fits_row, answer_text, TextFits};

use steps::Answered;

// Room ------------------------------------------------------------------------------------------------------------------

// Whether the lines of one row more are sure to fit, and a number for the row after it. A row has a line for each kept row at
// most, or one that it is refused.
pub fn row_fits(room: usize, filled: usize, kept: usize, number: usize) -> bool
    ensures { result ≡ fits_row room filled kept number }
{
    number < usize::MAX && lines::lines_fit(room, filled, kept.max(1))
}

// Lines ------------------------------------------------------------------------------------------------------------------

// Writes the lines of a row by what its step answered.
pub fn put_row(
    text: &mut [u8],
    at: usize,
    parameters: usize,
    number: usize,
    reports: &[u32],
    a: Answered,
) -> usize
    requires { TextFits at parameters text.old reports.now a }
    ensures { Written at (length (answer_text parameters number reports.now a)) (answer_text parameters number reports.now a) text.old text.new result }
{
    match a.refusal {
        refusals::TAKEN => lines::put_reports(text, at, parameters, number, reports, a.reported),
        refusal => lines::put_refused(text, at, parameters, number, refusal),
    }
}
