// The hopeful states of a property table (document 01, "The table"), as bits. Above `bits` and `property`. The face: `check`.
//
//     Of any table that is taken: `hopeful(p)` has bit s where one or more events lead from s to a verdict asked for.

#![tactic(auto)]

ghost use Rattle.std.specs.Prelude.{ℕ, ◌≡◌, ◌≤◌, ◌<◌, length};
ghost use Rattle.document.specs.Limits.{most_states};
ghost use Rattle.document.specs.Property.{asks_for};
ghost use Rattle.property.specs.Meaning.{meaning};
ghost use Rattle.hopes.specs.Hoping.{Leading, Hopes, Asks, Checks};
ghost use Rattle.hopes.specs.Steps.{Those, Ways, AllWays, Round, Reached};

use limits::{MOST_EVENTS, MOST_STATES};
use property::{Property, Taken};

// Every event that can be declared.
const EVERY_EVENT: u64 = 65535;

// Whether a verdict is among those asked for.
#[tactic(auto, using(crate::specs::LeadsLaws::asks_undecided, crate::specs::LeadsLaws::asks_past))]
pub fn asks_for(asked: u8, verdict: u8) -> bool
    ensures { result ≡ asks_for asked verdict }
{
    match verdict {
        1..=8 => bits::has(u64::from(asked), usize::from(verdict) - 1),
        _ => false,
    }
}

// The numbers below n that pass a test, as bits.
fn those<F: Fn(usize) -> bool>(n: usize, test: F) -> u64
    requires few { n ≤ most_states }
    requires callable { (s : ℕ) → s < n → F.pre test s }
    ensures { Those (F.post test) n result }
{
    let mut found = 0;
    for s in 0..n {
        if test(s) {
            found |= bits::only(s);
        }
    }
    found
}

// The states whose verdict is asked for, as bits.
pub fn asked_states(taken: &Taken) -> u64
    ensures { Asks (meaning taken.now.property) result }
{
    let p = &taken.property;
    those(p.states, |s| asks_for(p.asked, p.verdicts[s]))
}

// The states that an allowed event leads to from state s, as bits.
fn ways(taken: &Taken, s: usize, allowed: u64) -> u64
    requires { s < taken.now.property.states }
    ensures { Ways taken.now.property.next allowed taken.now.property.events s result }
{
    let p = &taken.property;
    let mut found = 0;
    for e in 0..p.events {
        if bits::has(allowed, e) {
            found |= bits::only(usize::from(p.next[s * MOST_EVENTS + e]));
        }
    }
    found
}

// For each state the states that an allowed event leads to from it: the one pass over the table that `leads` makes.
fn all_ways(taken: &Taken, allowed: u64) -> [u64; MOST_STATES]
    ensures { AllWays taken.now.property.next allowed taken.now.property.events taken.now.property.states result }
{
    let mut found = [0; MOST_STATES];
    for s in 0..taken.property.states {
        found[s] = ways(taken, s, allowed);
    }
    found
}

// One round: the states from which an event leads to one of a set of states.
fn round(ways: &[u64], goal: u64) -> u64
    requires { length ways.now ≤ most_states }
    ensures { Round ways.now goal (length ways.now) result }
{
    those(ways.len(), |s| bits::meet(ways[s], goal))
}

// The states from which one or more events lead to a marked state, from the ways of each state. Each round is one operation
// on a word for each state, and there are at most as many rounds as states: the first that finds nothing new is the last.
fn rounds(ways: &[u64], marked: u64) -> u64
    requires { length ways.now ≤ most_states }
    ensures { Reached ways.now (length ways.now) marked result }
{
    let mut found = 0;
    for _done in 0..ways.len() {
        let more = round(ways, marked | found);
        if more == found {
            return found;
        }
        found = more;
    }
    found
}

// The states from which one or more allowed events lead to a marked state, as bits. The table is gone through once.
pub fn leads(taken: &Taken, marked: u64, allowed: u64) -> u64
    ensures { Leading (meaning taken.now.property) marked allowed result }
{
    let ways = all_ways(taken, allowed);
    rounds(&ways[..taken.property.states], marked)
}

// The hopeful states, as bits: those from which one or more events lead to a verdict asked for.
pub fn hopeful(taken: &Taken) -> u64
    ensures { Hopes (meaning taken.now.property) result }
{
    leads(taken, asked_states(taken), EVERY_EVENT)
}

// The face --------------------------------------------------------------------------------------------------------------

// What the check of a property table says: 11, or 0 and the hopeful states as bits.
// Stays: a struct of C (`gorrindatz_check`), so a number stands for the refusal.
#[repr(C)]
#[derive(Clone, Copy)]
pub struct Checked {
    pub refusal: u8,
    pub hopeful: u64,
}

// Whether a property table is taken, and which of its states are hopeful; none where it is refused 11.
pub fn check(p: Property) -> Checked
    ensures { Checks (meaning p) result }
{
    match p.taken() {
        Ok(taken) => Checked {
            refusal: refusals::TAKEN,
            hopeful: hopeful(&taken),
        },
        Err(refusal) => Checked {
            refusal: refusal.number(),
            hopeful: 0,
        },
    }
}
