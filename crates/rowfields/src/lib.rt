// What the fields of a log row say (document 01, "Log rows and the run"): how many there are, and their values. Interior.

#![tactic(auto)]

ghost use Rattle.std.specs.Prelude.{◌≡◌, cond, ◌+◌, ◌≤◌, Some, None, length, drop};
ghost use Rattle.document.specs.Lists.{some};
ghost use Rattle.document.specs.Limits.{width};
ghost use Rattle.document.specs.Rows.{fields, value_of};
ghost use Rattle.document.specs.Log.{is_bad_value};
ghost use Rattle.fields.specs.Split.{up_to_comma};
ghost use Rattle.rowfields.specs.Said.{is_barred, values_said};

use limits::{Combination, WIDTH};

const CR: u8 = 13;

const LF: u8 = 10;

const QUOTE: u8 = 34;

const COMMA: u8 = 44;

// Whether a byte is one that no row may hold: a CR, an LF or a quote.
fn is_barred(b: u8) -> bool
    ensures { result ≡ is_barred b }
{
    b == CR || b == LF || b == QUOTE
}

// How many fields a row has; none where it holds a barred byte. One pass.
pub fn fields_said(row: &[u8]) -> Option<usize>
    ensures { result ≡ cond (some is_barred row.now) None (Some (length (fields row.now))) }
{
    let mut count = 1;
    for &b in row {
        if b == COMMA {
            count += 1;
        } else if is_barred(b) {
            return None;
        }
    }
    Some(count)
}

// The value of a field, 0 where it is empty; none where it is neither empty nor a value.
fn value_said(f: &[u8]) -> Option<u32>
    ensures { result ≡ cond (is_bad_value f.now) None (Some (value_of f.now)) }
{
    let value = values::value_of(f);
    if value == 0 && !f.is_empty() {
        None
    } else {
        Some(value)
    }
}

// The values of a row's fields after the first, which ends at `from`, each field found from the end of the one before; none where
// one of them is neither empty nor a value.
pub fn values_said(row: &[u8], from: usize, parameters: usize) -> Option<Combination>
    requires { (from ≡ up_to_comma row.now) × ((length (fields row.now) ≡ parameters + 1) × (parameters ≤ width)) }
    ensures { result ≡ values_said (drop 1 (fields row.now)) }
{
    let mut values = [0; WIDTH];
    let mut end = from;
    for k in 0..parameters {
        let start = end + 1;
        end = fields::field_end(row, start);
        values[k] = value_said(&row[start..end])?;
    }
    Some(values)
}
