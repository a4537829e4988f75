// Declarations read (document 01, "The declarations"): row by row, refusals 1 to 5 in the document's order. Above `rowrules`.

#![tactic(auto)]

ghost use Rattle.std.specs.Prelude.{◌≤◌, length};
ghost use Rattle.readings.specs.Readings.{Reads, Placed, RowReads};

use fields::Part;
use readings::Reading;
use refusals::Refusal;

// Bytes of declarations or of a pattern (refusal 1).
pub const TEXT_BYTES: usize = 4096;

// A reading with the event of the row at a place, or that row's refusal.
#[inline(always)]
fn with_row(text: &[u8], at: usize, t: Reading) -> Result<Reading, Refusal>
    requires { Placed text.now t × (at ≤ length text.now) }
    ensures { RowReads text.now at t result }
{
    let end = rows::row_end(text, at);
    let row = fields::split(&text[at..end]);
    rowrules::event_refusal(text, t, &row)?;
    let name = row.fields.places[0];
    let place = Part {
        start: at + name.start,
        size: name.size,
    };
    Ok(readings::one_more(t, place, names::set_of(&row)))
}

// Declarations as they stand in their text.
pub fn read(text: &[u8]) -> Result<Reading, Refusal>
    ensures { Reads text.now result }
{
    if TEXT_BYTES < text.len() {
        return Err(Refusal::TextTooLong);
    }
    let end = rows::row_end(text, 0);
    let header = fields::split(&text[..end]);
    rowrules::header_refusal(&header)?;
    let mut t = readings::none_read(header.fields.count - 1);
    let mut at = rows::next_row(text, 0);
    // Stays: it goes from row to row, whose ends no range says.
    while at < text.len() {
        t = with_row(text, at, t)?;
        at = rows::next_row(text, at);
    }
    if t.events == 0 {
        return Err(Refusal::OverLimits);
    }
    Ok(t)
}
