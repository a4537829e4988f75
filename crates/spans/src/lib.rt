// Which kept rows may include a binding (document 01, "One event"): rows ascend, so those that begin with its first number stand
// together; among them those that have its last number are looked for, and compared in between.
// Interior: for `inplace` and `settling`.

#![tactic(auto)]

ghost use Rattle.std.specs.Prelude.{◌+◌, ◌*◌, ◌<◌, ◌≤◌, length};
ghost use Rattle.document.specs.Limits.{width, kept_stride};
ghost use Rattle.spans.specs.Spans.{Rising, Begins, Ends, LastBound, Agrees, NextFound};

use limits::{Combination, KEPT_STRIDE};

// Where the rows stand that may include the binding ---------------------------------------------------------------------

// The first row that does not begin with a number below this one.
pub fn first_place(kept: &[u32], m: usize, least: usize) -> usize
    requires { Rising m kept.now }
    ensures { Begins m kept.now least result }
{
    if least == 0 {
        return 0;
    }
    let (rows, _) = kept.as_chunks::<KEPT_STRIDE>();
    rows[..m].partition_point(|row| (row[0] as usize) < least)
}

// The row after those that begin with the binding's first number; after all, where it does not bind the first parameter.
pub fn end_place(kept: &[u32], m: usize, first: u32) -> usize
    requires { Rising m kept.now }
    ensures { Ends m kept.now first result }
{
    if first == 0 {
        return m;
    }
    first_place(kept, m, first as usize + 1)
}

// Which of them include it ----------------------------------------------------------------------------------------------

// The last parameter that is bound; the first, where none is.
pub fn last_bound(b: Combination) -> usize
    ensures { LastBound b result }
{
    b.iter().rposition(|&x| x != 0).unwrap_or(0)
}

// The next row, from a row on and before the end, that has a number at a parameter; or the end.
// Stays: the end where there is none, which is the row that the caller goes on from.
pub fn next_with(kept: &[u32], from: usize, end: usize, parameter: usize, number: u32) -> usize
    requires { (from ≤ end) × (end * kept_stride ≤ length kept.now) × (parameter < width) }
    ensures { NextFound kept.now from end parameter number result }
{
    (from..end)
        .find(|&i| kept[i * KEPT_STRIDE + parameter] == number)
        .unwrap_or(end)
}

// Whether a row agrees with the binding at the parameters from one up to another: it has their numbers where they are bound.
pub fn agrees(kept: &[u32], at: usize, b: Combination, from: usize, to: usize) -> bool
    requires { (at + width ≤ length kept.now) × (to ≤ width) }
    ensures { Agrees kept.now at b from to result }
{
    (from..to).all(|j| b[j] == 0 || kept[at + j] == b[j])
}
