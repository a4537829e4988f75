// Rows of a text (document 01, "The declarations", "Log rows and the run"): where a row ends is said here alone. `window` looks
// for the last line end that it holds.

#![tactic(auto)]

ghost use Rattle.std.specs.Prelude.{◌≡◌, ◌+◌, ◌<◌, length, get_or, drop};
ghost use Rattle.document.specs.Rows.{ends_row, first_row, stray};
ghost use Rattle.document.specs.Log.{next_at};

const CR: u8 = 13;

const LF: u8 = 10;

// Whether a line end stands at a place.
fn ends_at(s: &[u8], i: usize) -> bool
    requires { i < length s.now }
    ensures { result ≡ ends_row (get_or s.now i 0) (drop (i + 1) s.now) }
{
    if s.len() <= i + 1 || s[i] != CR {
        return false;
    }
    s[i + 1] == LF
}

// Where the row that begins at a place ends: its line end, or the text's end.
pub fn row_end(s: &[u8], at: usize) -> usize
    ensures { result ≡ at + length (first_row (drop at s.now)) }
{
    for i in at..s.len() {
        if ends_at(s, i) {
            return i;
        }
    }
    at.max(s.len())
}

// The place after the row that begins at a place, its line end passed.
pub fn next_row(s: &[u8], at: usize) -> usize
    ensures { result ≡ next_at s.now at }
{
    let end = row_end(s, at);
    if end < s.len() { end + 2 } else { s.len() }
}

// Whether a row holds a stray CR or LF.
pub fn has_stray(row: &[u8]) -> bool
    ensures { result ≡ stray row.now }
{
    row.iter().any(|&b| b == CR || b == LF)
}
