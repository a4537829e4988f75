// Rows of combinations in order, in lent tables (document 01, "One event"): a table is the caller's numbers, row after row. Where
// a combination stands among rows, and rows put in, written and cleared. Interior.

#![tactic(auto, using(crate::specs::RowsLaws::middle_inside))]

ghost use Rattle.std.specs.Prelude.{◌≡◌, ◌+◌, ◌≤◌, length};
ghost use Rattle.document.specs.Lists.{among};
ghost use Rattle.document.specs.Limits.{seen_stride, kept_stride};
ghost use Rattle.document.specs.Tables.{seen_rows};
ghost use Rattle.ordered.specs.Rows.{Searchable, Parted, SeenInOrder};
ghost use Rattle.ordered.specs.Writes.{SeenInserted, Put, Inserted, ZeroIn};

use limits::{Combination, KEPT_STRIDE, SEEN_STRIDE, WIDTH};

// Rows in order ---------------------------------------------------------------------------------------------------------

// The first of n rows, the first of which begins at `base`, that does not precede c; or n.
// Stays: tried as `partition_point` over rows by `as_chunks`, which took 1.02 to 1.06 times the instructions of a whole log.
pub fn place(t: &[u32], base: usize, stride: usize, n: usize, c: Combination) -> usize
    requires { Searchable base stride n t.now }
    ensures { Parted base stride n t.now c result }
{
    let mut low = 0;
    let mut high = n;
    while low < high {
        let middle = low + (high - low) / 2;
        if combos::precedes(bound::row_at(t, base + middle * stride), c) {
            low = middle + 1;
        } else {
            high = middle;
        }
    }
    low
}

// The seen rows of a lent table: so many of its first rows, in order.
#[derive(Clone, Copy)]
pub struct Seen<'a> {
    pub numbers: &'a [u32],
    pub count: usize,
    ghost in_order: { SeenInOrder count numbers.now },
}

impl Seen<'_> {
    // Whether one of them is c.
    pub fn holds(self, c: Combination) -> bool
        ensures { result ≡ among c (seen_rows self.entry.count self.entry.numbers.now) }
    {
        let at = place(self.numbers, 0, SEEN_STRIDE, self.count, c);
        at < self.count && c == bound::row_at(self.numbers, at * SEEN_STRIDE)
    }
}

// Rows written ----------------------------------------------------------------------------------------------------------

// Puts a seen row in at a place of the first n numbers; those from there on move up.
pub fn insert_seen(t: &mut [u32], n: usize, at: usize, c: Combination)
    requires { (at ≤ n) × (n + seen_stride ≤ length t.old) }
    ensures { SeenInserted at n c t.old t.new }
{
    t.copy_within(at..n, at + SEEN_STRIDE);
    t[at..at + WIDTH].copy_from_slice(&c);
}

// Writes a combination and a number after it from a place on.
pub fn write_kept(t: &mut [u32], at: usize, c: Combination, s: u32)
    requires { at + kept_stride ≤ length t.old }
    ensures { Put at c s t.old t.new }
{
    t[at..at + WIDTH].copy_from_slice(&c);
    t[at + WIDTH] = s;
}

// Puts a row with its last number in at a place, before the first n numbers' end; those from there on move up.
pub fn insert_kept(t: &mut [u32], n: usize, at: usize, c: Combination, s: u32)
    requires { (at ≤ n) × (n + kept_stride ≤ length t.old) }
    ensures { Inserted at n c s t.old t.new }
{
    t.copy_within(at..n, at + KEPT_STRIDE);
    write_kept(t, at, c, s);
}

// Writes 0 from a place up to another.
pub fn clear(t: &mut [u32], from: usize, to: usize)
    requires { to ≤ length t.old }
    ensures { ZeroIn from to t.old t.new }
{
    t[from.min(to)..to].fill(0);
}
