// What can come next (document 01, "The table"): the sets of numbers that the events lead to from a set. Above `sets`.

#![tactic(auto)]

ghost use Rattle.std.specs.Prelude.{◌≡◌, suc};
ghost use Rattle.document.specs.Limits.{most_names};
ghost use Rattle.nexts.specs.Nexts.{nexts_of, moves_of};

use limits::{MOST_EVENTS, NUMBERS};

// The numbers that can come next after a number of a set.
fn nexts(after: &[u32; NUMBERS], set: u32) -> u32
    ensures { result ≡ nexts_of after.now set (suc most_names) }
{
    let mut found = 0;
    for k in 0..NUMBERS {
        found |= if sets::has(set, k) { after[k] } else { 0 };
    }
    found
}

// The sets that the events lead to from a set. An event that the pattern never names leads to the base alone.
pub fn moves(
    after: &[u32; NUMBERS],
    named: &[u32; MOST_EVENTS],
    base: u32,
    set: u32,
) -> [u32; MOST_EVENTS]
    ensures { result ≡ moves_of after.now named.now base set }
{
    let reach = nexts(after, set);
    let mut to = [0; MOST_EVENTS];
    for e in 0..MOST_EVENTS {
        to[e] = reach & named[e] | base;
    }
    to
}
