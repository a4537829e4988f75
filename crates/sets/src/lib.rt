// Position sets of a pattern (document 01, "The table"): a set of numbers 0 to 31 is a number whose bit k says whether it
// holds k. What a part of a pattern carries while it is read: whether the empty word is one of its words, the numbers at which
// a word can begin and end, those that can come next after each number, and those that name each event.
// Interior: the readers of the crate `pattern` build a pattern's shape with it, and `growing` goes through its sets.

#![tactic(auto)]

ghost use Rattle.std.specs.Prelude.{◌≡◌, ◌≤◌, ◌<◌};
ghost use Rattle.document.specs.Patterns.{epsilon, name};
ghost use Rattle.document.specs.Positions.{holds};
ghost use Rattle.document.specs.Limits.{most_names, most_events};
ghost use Rattle.sets.specs.Shapes.{merge_of, link_of, shape_of, either_shape, then_shape, star_shape, plus_shape};

use limits::{MOST_EVENTS, NUMBERS};

// What a part of a pattern carries: `follow` at a number those that can come next after it, `named` at an event those that name it.
#[derive(Clone, Copy)]
pub struct Shape {
    pub null: bool,
    pub first: u32,
    pub last: u32,
    pub follow: [u32; NUMBERS],
    pub named: [u32; MOST_EVENTS],
}

// Whether a set holds a number: `bits::has` over half the bits, since the steps of a loop over 32 numbers then stand side by side
// in half as many words.
#[inline(always)]
pub fn has(set: u32, k: usize) -> bool
    requires { k < 32 }
    ensures { result ≡ holds set k }
{
    set >> k & 1 == 1
}

// The sets of a and b joined, place by place.
#[inline(always)]
fn merge<const N: usize>(a: &[u32; N], b: &[u32; N]) -> [u32; N]
    ensures { result ≡ merge_of N a.now b.now }
{
    let mut joined = *a;
    for i in 0..N {
        joined[i] |= b[i];
    }
    joined
}

// After the numbers of `last` those of `first` can come too.
#[inline(always)]
fn link(a: &[u32; NUMBERS], last: u32, first: u32) -> [u32; NUMBERS]
    ensures { result ≡ link_of a.now last first }
{
    let mut linked = *a;
    for i in 0..NUMBERS {
        linked[i] |= if has(last, i) { first } else { 0 };
    }
    linked
}

// The empty word.
#[inline(always)]
pub fn empty() -> Shape
    ensures { result ≡ shape_of epsilon }
{
    Shape {
        null: true, // its one word
        first: 0,
        last: 0,
        follow: [0; NUMBERS],
        named: [0; MOST_EVENTS],
    }
}

// The event name with the number n.
#[inline(always)]
pub fn leaf(n: usize, event: usize) -> Shape
    requires { (n ≤ most_names) × (event < most_events) }
    ensures { result ≡ shape_of (name n event) }
{
    let set = 1u32 << n;
    let mut named = [0u32; MOST_EVENTS];
    named[event] = set;
    Shape {
        null: false,
        first: set,
        last: set,
        follow: [0; NUMBERS],
        named,
    }
}

// a or b.
#[inline(always)]
pub fn alternative(a: Shape, b: Shape) -> Shape
    ensures { result ≡ either_shape a b }
{
    Shape {
        null: a.null || b.null,
        first: a.first | b.first,
        last: a.last | b.last,
        follow: merge(&a.follow, &b.follow),
        named: merge(&a.named, &b.named),
    }
}

// a and then b.
#[inline(always)]
pub fn sequence(a: Shape, b: Shape) -> Shape
    ensures { result ≡ then_shape a b }
{
    let merged = merge(&a.follow, &b.follow);
    Shape {
        null: a.null && b.null,
        first: if a.null { a.first | b.first } else { a.first },
        last: if b.null { a.last | b.last } else { b.last },
        follow: link(&merged, a.last, b.first),
        named: merge(&a.named, &b.named),
    }
}

// Any number of a, one after another.
#[inline(always)]
pub fn star(a: Shape) -> Shape
    ensures { result ≡ star_shape a }
{
    let follow = link(&a.follow, a.last, a.first);
    Shape {
        null: true,
        follow,
        ..a
    }
}

// One or more of a.
#[inline(always)]
pub fn plus(a: Shape) -> Shape
    ensures { result ≡ plus_shape a }
{
    Shape {
        follow: link(&a.follow, a.last, a.first),
        ..a
    }
}
