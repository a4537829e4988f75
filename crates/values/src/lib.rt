// The value that a field of a log row says (document 01, "Log rows and the run").
//
//     value_of(b"17") is 17; value_of(b"017"), value_of(b"0") and value_of(b"4294967296") are 0: none of them says a value.

#![tactic(auto)]

ghost use Rattle.std.specs.Prelude.{◌≡◌};
ghost use Rattle.document.specs.Rows.{value_of};

const ZERO: u8 = 48;

const NINE: u8 = 57;

const LARGEST_VALUE: u64 = 4294967295;

// The value that a field says, or 0 where it says none. The table of classes, which names and tokens are read by, is not asked
// here: a digit is wanted for its value, and two comparisons tell it; they are proved to be its class.
// Stays: 0 where it says none, which no value is: so document 01 has it, and `value_of` (Rows) with it.
pub fn value_of(f: &[u8]) -> u32
    ensures { result ≡ value_of f.now }
{
    if f.is_empty() || f[0] == ZERO {
        return 0;
    }
    let mut value = 0;
    for &b in f {
        if b < ZERO || NINE < b {
            return 0;
        }
        let more = value * 10 + u64::from(b - ZERO);
        if LARGEST_VALUE < more {
            return 0;
        }
        value = more;
    }
    value as u32
}
