// One combination (document 01, "Words"): which of its numbers are bound, its restriction to some of them, and the row of a lent
// table that one is read from. Interior.

#![tactic(auto)]

ghost use Rattle.std.specs.Prelude.{◌≡◌, ◌+◌, ◌≤◌, length};
ghost use Rattle.document.specs.Limits.{width};
ghost use Rattle.document.specs.Combinations.{binds_exactly, zero_past};
ghost use Rattle.document.specs.Tables.{numbers_at};
ghost use Rattle.bound.specs.Restrictions.{restricted};

use limits::{Combination, WIDTH};

// Whether the combination binds exactly the parameters of a set.
pub fn binds_exactly(set: u64, c: Combination) -> bool
    ensures { result ≡ binds_exactly set c }
{
    // Stays: by cases, since `bits::has(set, j) == (c[j] != 0)` makes the look-ups of the session check take 1.57 times the instructions.
    (0..WIDTH).all(|j| {
        if bits::has(set, j) {
            c[j] != 0
        } else {
            c[j] == 0
        }
    })
}

// Whether the numbers past the first n are 0.
pub fn zero_past(n: usize, c: Combination) -> bool
    ensures { result ≡ zero_past n c }
{
    c.iter().skip(n).all(|x| *x == 0)
}

// The combination that a row of a table begins with.
pub fn row_at(t: &[u32], at: usize) -> Combination
    requires { at + width ≤ length t.now }
    ensures { result ≡ numbers_at width t.now at }
{
    std::array::from_fn(|j| t[at + j])
}

// The parameters of a combination that are in a set, the others unbound.
pub fn restricted(set: u64, c: Combination) -> Combination
    ensures { result ≡ restricted set c }
{
    std::array::from_fn(|j| if bits::has(set, j) { c[j] } else { 0 })
}
