// Which kept rows move at an event, and where to (document 01, "One event"): "If the join of all seen bindings that c includes,
// before this event, is exactly k, then c moves from k's state by the event". Above `joins` and `tables`.
// Interior: the event is worked out and written down with it.

#![tactic(auto)]

ghost use Rattle.std.specs.Prelude.{◌<◌, ◌≡◌, false, get_or};
ghost use Rattle.document.specs.Limits.{most_events, most_states};
ghost use Rattle.document.specs.Positions.{holds};
ghost use Rattle.document.specs.Combinations.{includes};
ghost use Rattle.document.specs.Tables.{seen_rows};
ghost use Rattle.moves.specs.Steps.{is_new, step_of, moves_at};
ghost use Rattle.moves.specs.Ready.{Binds, Joint};

use limits::{Combination, MOST_EVENTS, Transitions, Verdicts};
use ordered::Seen;

// What is worked out once for a property and then used at each event: its counts, transitions and verdicts, and its hopeful
// states and those whose verdict is asked for, as bits.
// Stays: what is asked of it stands in clauses (`Onward`), with the event that goes by it.
#[derive(Clone, Copy)]
pub struct Known {
    pub parameters: usize,
    pub states: usize,
    pub next: Transitions,
    pub verdicts: Verdicts,
    pub hopeful: u64,
    pub asked: u64,
}

impl Known {
    // The state that an event leads to.
    pub fn next_state(&self, s: u32, e: usize) -> u32
        requires { (s < most_states) × (e < most_events) }
        ensures { result ≡ step_of self.now.next s e }
    {
        self.next[s as usize * MOST_EVENTS + e] as u32
    }

    // Whether a row in this state stays kept.
    pub fn is_hopeful(&self, s: u32) -> bool
        requires { s < most_states }
        ensures { result ≡ holds self.now.hopeful s }
    {
        bits::has(self.hopeful, s as usize)
    }

    // Whether a row that moves to this state is reported.
    pub fn is_asked(&self, s: u32) -> bool
        requires { s < most_states }
        ensures { result ≡ holds self.now.asked s }
    {
        bits::has(self.asked, s as usize)
    }

    // The verdict of a state.
    pub fn verdict(&self, s: u32) -> u32
        requires { s < most_states }
        ensures { result ≡ get_or self.now.verdicts s 0 }
    {
        self.verdicts[s as usize] as u32
    }
}

// Whether the binding is neither empty nor seen.
pub fn is_new(b: Combination, seen: Seen) -> bool
    ensures { result ≡ is_new b (seen_rows seen.entry.count seen.entry.numbers.now) }
{
    !combos::is_empty(b) && !seen.holds(b)
}

// An event: its number, what it binds, and whether that is neither empty nor seen.
#[derive(Clone, Copy)]
pub struct Event {
    pub number: usize,
    pub binding: Combination,
    pub fresh: bool,
}

impl Event {
    // Whether the row of a combination that does not include the binding moves. A binding that is not new creates nothing.
    pub fn creates(&self, k: Combination, seen: Seen) -> bool
        requires { Binds seen.count seen.numbers.now self.now.binding self.now.fresh × Joint seen.count seen.numbers.now k × (includes k self.now.binding ≡ false) }
        ensures { result ≡ moves_at self.now.binding (seen_rows seen.entry.count seen.entry.numbers.now) k }
    {
        self.fresh
            && combos::compatible(self.binding, k)
            && joins::joins_to(combos::join(self.binding, k), k, seen)
    }

    // Whether the row of a combination moves: in place where it includes the binding.
    pub fn moves(&self, k: Combination, seen: Seen) -> bool
        requires { Binds seen.count seen.numbers.now self.now.binding self.now.fresh × Joint seen.count seen.numbers.now k }
        ensures { result ≡ moves_at self.now.binding (seen_rows seen.entry.count seen.entry.numbers.now) k }
    {
        combos::includes(k, self.binding) || self.creates(k, seen)
    }
}
