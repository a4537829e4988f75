// What a row of declarations must be (document 01, "The declarations"): the header's refusal, and an event's after those read so
// far, 5, 2, 3, 4 in this order.

#![tactic(auto)]

ghost use Rattle.std.specs.Prelude.{◌≡◌};
ghost use Rattle.document.specs.Refusals.{refusal_of};
ghost use Rattle.document.specs.Declarations.{header_row, event_row};
ghost use Rattle.readings.specs.Readings.{Placed, said};
ghost use Rattle.refusals.specs.Named.{number_of};

use fields::Row;
use limits::{MOST_EVENTS, MOST_FIELDS};
use places::Names;
use readings::Reading;
use refusals::Refusal;

// The first field of a header, and the name that no event has.
const EVENT: &[u8] = b"event";

const EPSILON: &[u8] = b"epsilon";

// Whether the declarations' header is taken, or its refusal: 5, 2, 3, 4 in this order.
pub fn header_refusal(row: &Row) -> Result<(), Refusal>
    ensures { number_of result ≡ refusal_of (header_row row.now.bytes.now) }
{
    if MOST_FIELDS < row.fields.count {
        return Err(Refusal::OverLimits);
    }
    if rows::has_stray(row.bytes) || fields::field(row.bytes, 0) != EVENT {
        return Err(Refusal::BadShape);
    }
    if !names::all_names(row) {
        return Err(Refusal::BadName);
    }
    if names::has_repeat(row) {
        return Err(Refusal::NameTwice);
    }
    Ok(())
}

// Whether an event's row is taken after those read so far, or its refusal: 5, 2, 3, 4 in this order.
pub fn event_refusal(text: &[u8], t: Reading, row: &Row) -> Result<(), Refusal>
    requires { Placed text.now t }
    ensures { number_of result ≡ refusal_of (event_row (said text.now t) row.now.bytes.now) }
{
    if MOST_EVENTS <= t.events {
        return Err(Refusal::OverLimits);
    }
    if rows::has_stray(row.bytes)
        || row.fields.count != t.parameters + 1
        || !names::all_marks(row)
    {
        return Err(Refusal::BadShape);
    }
    let name = row.field(0);
    if !names::is_name(name) || name == EPSILON {
        return Err(Refusal::BadName);
    }
    let declared = Names {
        text,
        places: &t.places,
        count: t.events,
    };
    if declared.find(name).is_some() {
        return Err(Refusal::NameTwice);
    }
    Ok(())
}
