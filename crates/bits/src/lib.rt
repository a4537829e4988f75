// Sets of numbers as the bits of a word: bit k says whether the set holds k (document 01, "The table"; the definition is
// `holds`). Leaves that the table, the session check and the hopeful states share, and in specs/ the laws of `|`, `&` and one bit.

#![tactic(auto)]

ghost use Rattle.std.specs.Prelude.{◌≡◌, cond, ◌<◌, ◌^◌};
ghost use Rattle.document.specs.Positions.{holds};
ghost use Rattle.bits.specs.Bits.{meets};

// Whether a set holds a number.
pub fn has(set: u64, k: usize) -> bool
    requires { k < 64 }
    ensures { result ≡ holds set k }
{
    set >> k & 1 == 1
}

// The set of one number.
pub fn only(k: usize) -> u64
    requires { k < 64 }
    ensures { result ≡ 2 ^ k }
{
    1u64 << k
}

// A set where a test holds, else the empty set.
pub fn set_if(test: bool, set: u64) -> u64
    ensures { result ≡ cond test set 0 }
{
    if test { set } else { 0 }
}

// Whether two sets have a number in common.
pub fn meet(a: u64, b: u64) -> bool
    ensures { result ≡ meets a b }
{
    a & b != 0
}
