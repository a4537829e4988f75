// Names and marks (document 01, "The declarations"): where name bytes end, what makes a name or a mark, and the same of all
// fields of a declarations row that is split. It leans on `fields` and `classes`.

#![tactic(auto)]

ghost use Rattle.std.specs.Prelude.{ℕ, Bool, ◌≡◌, cond, [], ◌∷◌, ◌+◌, ◌≤◌, ◌<◌, length, drop};
ghost use Rattle.document.specs.Lists.{every, equal, among, repeated, take_while};
ghost use Rattle.document.specs.Classes.{is_name_byte, one_byte};
ghost use Rattle.document.specs.Rows.{fields, field};
ghost use Rattle.document.specs.Declarations.{is_name, is_mark, set_from};
ghost use Rattle.fields.specs.Split.{most_fields};
ghost use Rattle.names.specs.Runs.{Tests};

use fields::Row;

// At most so many bytes has a name.
pub const NAME_BYTES: usize = 32;

// Where the bytes from a place on that pass a test end: at the place itself where none stands or it does not pass.
pub fn run_end<F: Fn(u8) -> bool>(s: &[u8], at: usize, test: F) -> usize
    requires { (b : ℕ) → b < 256 → F.pre test b }
    ensures { (p : ℕ → Bool) → Tests (F.post test) p → result ≡ at + length (take_while p (drop at s.now)) }
{
    for i in at..s.len() {
        if !test(s[i]) {
            return i;
        }
    }
    at.max(s.len())
}

// Where the name bytes from a place on end.
pub fn name_end(s: &[u8], at: usize) -> usize
    ensures { result ≡ at + length (take_while is_name_byte (drop at s.now)) }
{
    run_end(s, at, classes::is_name_byte)
}

pub fn is_name(f: &[u8]) -> bool
    ensures { result ≡ is_name f.now }
{
    if f.is_empty() || NAME_BYTES < f.len() || !classes::is_letter(f[0]) {
        return false;
    }
    name_end(f, 1) == f.len()
}

pub fn is_one(f: &[u8]) -> bool
    ensures { result ≡ equal f.now (one_byte ∷ []) }
{
    fields::same(f, b"1")
}

pub fn is_mark(f: &[u8]) -> bool
    ensures { result ≡ is_mark f.now }
{
    fields::same(f, b"0") || is_one(f)
}

// What a mark adds to a set: the bit of its parameter, if it is `1`.
pub fn worth(f: &[u8], bit: u8) -> u8
    ensures { result ≡ cond (equal f.now (one_byte ∷ [])) bit 0 }
{
    if is_one(f) { bit } else { 0 }
}

// Whether every field after the first is a name.
// Stays: that a row has no more fields than one can have is asked here and below, since only rows that refusal 5 lets by have.
pub fn all_names(row: &Row) -> bool
    requires { row.now.fields.count ≤ most_fields }
    ensures { result ≡ every is_name (drop 1 (fields row.now.bytes.now)) }
{
    (1..row.fields.count).all(|k| is_name(row.field(k)))
}

// Whether every field after the first is a mark.
pub fn all_marks(row: &Row) -> bool
    requires { row.now.fields.count ≤ most_fields }
    ensures { result ≡ every is_mark (drop 1 (fields row.now.bytes.now)) }
{
    (1..row.fields.count).all(|k| is_mark(row.field(k)))
}

// Whether a field stands again later in the row.
pub fn stands_again(row: &Row, at: usize) -> bool
    requires { (at < row.now.fields.count) × (row.now.fields.count ≤ most_fields) }
    ensures { result ≡ among (field row.now.bytes.now at) (drop (at + 1) (fields row.now.bytes.now)) }
{
    let name = row.field(at);
    (at + 1..row.fields.count).any(|k| name == row.field(k))
}

// Whether some field after the first stands twice.
pub fn has_repeat(row: &Row) -> bool
    requires { row.now.fields.count ≤ most_fields }
    ensures { result ≡ repeated (drop 1 (fields row.now.bytes.now)) }
{
    (1..row.fields.count).any(|k| stands_again(row, k))
}

// The set that the marks of an event's row say.
pub fn set_of(row: &Row) -> u8
    requires { row.now.fields.count ≤ most_fields }
    ensures { result ≡ set_from 0 (drop 1 (fields row.now.bytes.now)) }
{
    let mut set = 0;
    let mut bit = 1;
    for k in 1..row.fields.count {
        set += worth(row.field(k), bit);
        bit *= 2;
    }
    set
}
