// Clauses of the session check that one table answers by itself (document 01, "Numbers of refusal", 12). Above `combos` and `bound`.

#![tactic(auto)]

ghost use Rattle.std.specs.Prelude.{◌≡◌, ◌*◌, ◌≤◌, length};
ghost use Rattle.document.specs.Lists.{every};
ghost use Rattle.document.specs.Limits.{seen_stride};
ghost use Rattle.document.specs.Combinations.{zero_past};
ghost use Rattle.document.specs.Session.{ascending, zero_between};
ghost use Rattle.clauses.specs.Rows.{rows_of, Rows};
ghost use Rattle.clauses.specs.RowsLaws.{not_empty};

use limits::SEEN_STRIDE;

// Whether the combination of each row precedes the next row's.
pub fn rows_ascend(t: &[u32], stride: usize, n: usize) -> bool
    requires { Rows stride n t.now }
    ensures { result ≡ ascending (rows_of stride n t.now) }
{
    (1..n).all(|i| combos::precedes(
        bound::row_at(t, (i - 1) * stride),
        bound::row_at(t, i * stride),
    ))
}

// Whether no seen row is empty.
pub fn rows_bound(t: &[u32], n: usize) -> bool
    requires { n * seen_stride ≤ length t.now }
    ensures { result ≡ every not_empty (rows_of seen_stride n t.now) }
{
    (0..n).all(|i| !combos::is_empty(bound::row_at(t, i * SEEN_STRIDE)))
}

// Whether the numbers of each row past the parameters are 0.
pub fn rows_within(t: &[u32], stride: usize, n: usize, parameters: usize) -> bool
    requires { Rows stride n t.now }
    ensures { result ≡ every (zero_past parameters) (rows_of stride n t.now) }
{
    (0..n).all(|i| bound::zero_past(parameters, bound::row_at(t, i * stride)))
}

// Whether the numbers from a place up to another are 0.
pub fn zero_between(t: &[u32], from: usize, to: usize) -> bool
    requires { to ≤ length t.now }
    ensures { result ≡ zero_between from to t.now }
{
    for p in from..to {
        if t[p] != 0 {
            return false;
        }
    }
    true
}
