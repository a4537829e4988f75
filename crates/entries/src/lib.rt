// A row of a log: its event and values, or the refusal (document 01, "Log rows and the run"; refusals 18 to 21).
// Interior: the calls of `logs` and `printing` judge the declarations once, and `turns` reads each row with it.

#![tactic(auto)]

ghost use Rattle.std.specs.Prelude.{◌≡◌, ◌≤◌};
ghost use Rattle.document.specs.Limits.{width};
ghost use Rattle.document.specs.Log.{row_event};
ghost use Rattle.entries.specs.Entries.{declared_at, row_said};

use limits::{Combination, EventSets};
use places::Names;
use refusals::Refusal;

pub const ROW_BYTES: usize = 128;

// A row's event and values.
#[derive(Clone, Copy)]
pub struct Entry {
    pub event: usize,
    pub values: Combination,
}

// The event and values that a row says, for declarations whose events have these names and sets.
pub fn read_row(
    names: &Names,
    sets: &EventSets,
    parameters: usize,
    row: &[u8],
) -> Result<Entry, Refusal>
    requires { parameters ≤ width }
    ensures { row_event (declared_at names.now.text.now names.now.places.now sets.now names.now.count parameters) row.now ≡ row_said result }
{
    if ROW_BYTES < row.len() || rowfields::fields_said(row) != Some(parameters + 1) {
        return Err(Refusal::BadRow);
    }
    let end = fields::field_end(row, 0);
    let event = names.find(&row[..end]).ok_or(Refusal::UnknownEvent)?;
    let values = rowfields::values_said(row, end, parameters).ok_or(Refusal::BadValue)?;
    if !bound::binds_exactly(u64::from(sets[event]), values) {
        return Err(Refusal::WrongFields);
    }
    Ok(Entry { event, values })
}
