// The join of the seen rows that a combination includes (document 01, "One event"): looked up by the combination's restrictions,
// and whether it is a given one. It compares in place and alters nothing. Above `combos`.

#![tactic(auto)]

ghost use Rattle.std.specs.Prelude.{◌≡◌};
ghost use Rattle.document.specs.Lists.{equal};
ghost use Rattle.document.specs.Limits.{width};
ghost use Rattle.document.specs.OneEvent.{join_seen};
ghost use Rattle.document.specs.Tables.{seen_rows};
ghost use Rattle.joins.specs.JoinLaws.{missing, Joins};

use limits::{Combination, WIDTH};
use ordered::Seen;

// Sets of parameters, as bits.
const SETS: u64 = 1 << WIDTH;

// The restriction of c to a set of parameters, where it binds them all, it is seen, and k does not include it.
#[tactic(auto, unfolding(crate::specs::JoinLaws::missing))]
fn missing(k: Combination, set: u64, c: Combination, seen: Seen) -> Option<Combination>
    ensures { result ≡ missing set c k (seen_rows seen.entry.count seen.entry.numbers.now) }
{
    let part = bound::restricted(set, c);
    if bound::binds_exactly(set, part) && !combos::includes(k, part) && seen.holds(part) {
        Some(part)
    } else {
        None
    }
}

// The join of the seen rows that c includes.
pub fn join_seen(c: Combination, seen: Seen) -> Combination
    ensures { result ≡ join_seen width c (seen_rows seen.entry.count seen.entry.numbers.now) }
{
    let mut acc = [0; WIDTH];
    for set in (0..SETS).rev() {
        if let Some(part) = missing(acc, set, c, seen) {
            // Stays: no call's array is laid straight in a variable that the loop lends, as the checker has it.
            let joined = combos::join(acc, part);
            acc = joined;
        }
    }
    acc
}

// Whether the join of the seen rows that c includes is k, where k is such a join and c includes it: one seen row that c
// includes and k does not refutes it.
pub fn joins_to(c: Combination, k: Combination, seen: Seen) -> bool
    requires { Joins seen.count seen.numbers.now c k }
    ensures { result ≡ equal (join_seen width c (seen_rows seen.entry.count seen.entry.numbers.now)) k }
{
    for set in (0..SETS).rev() {
        if missing(k, set, c, seen).is_some() {
            return false;
        }
    }
    true
}
