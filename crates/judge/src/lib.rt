// The session check, refusal 12 (document 01, "Numbers of refusal"), alone. It compares in place and alters nothing. Above
// `joins`, `rooms` and `clauses`.

#![tactic(auto)]

ghost use Rattle.std.specs.Prelude.{◌≡◌, ◌*◌, ◌≤◌, length};
ghost use Rattle.document.specs.Lists.{every};
ghost use Rattle.document.specs.Limits.{kept_stride, most_states};
ghost use Rattle.document.specs.Positions.{holds};
ghost use Rattle.document.specs.Tables.{seen_rows, kept_rows};
ghost use Rattle.clauses.specs.Rows.{Rows};
ghost use Rattle.judge.specs.Sound.{rightly_kept_by, sound_by, session_of};
ghost use Rattle.judge.specs.SoundLaws.{rows_ordered, rows_clean, seen_stands, kept_stands};

use limits::{Combination, KEPT_STRIDE, SEEN_STRIDE, WIDTH};
use ordered::Seen;

// Whether a state is one of the states and hopeful, and a combination the join of the seen rows that it includes.
#[tactic(auto, using(combos::specs::LibraryLaws::same_is_equal), unfolding(crate::specs::Sound::rightly_kept_by))]
fn rightly_kept(c: Combination, state: usize, states: usize, hopeful: u64, seen: Seen) -> bool
    requires { states ≤ most_states }
    ensures { result ≡ rightly_kept_by states (holds hopeful) (seen_rows seen.entry.count seen.entry.numbers.now) (record { combination = c; state = state }) }
{
    state < states && bits::has(hopeful, state) && joins::join_seen(c, seen) == c
}

// The same of each kept row.
fn rows_rightly_kept(kept: &[u32], m: usize, states: usize, hopeful: u64, seen: Seen) -> bool
    requires { (m * kept_stride ≤ length kept.now) × (states ≤ most_states) }
    ensures { result ≡ every (rightly_kept_by states (holds hopeful) (seen_rows seen.entry.count seen.entry.numbers.now)) (kept_rows m kept.now) }
{
    (0..m).all(|i| {
        let at = i * KEPT_STRIDE;
        let state = kept[at + WIDTH] as usize;
        rightly_kept(bound::row_at(kept, at), state, states, hopeful, seen)
    })
}

// Whether the first n rows of a table are within the room and ascend.
#[tactic(auto, unfolding(crate::specs::SoundLaws::rows_ordered))]
fn rows_ordered(t: &[u32], stride: usize, room: usize, n: usize) -> bool
    requires { Rows stride room t.now }
    ensures { result ≡ rows_ordered stride room n t.now }
{
    n <= room && clauses::rows_ascend(t, stride, n)
}

// Whether none of them binds a number past the parameters, and the room past them is 0.
#[tactic(auto, unfolding(crate::specs::SoundLaws::rows_clean))]
fn rows_clean(t: &[u32], stride: usize, room: usize, n: usize, parameters: usize) -> bool
    requires { Rows stride room t.now × (n ≤ room) }
    ensures { result ≡ rows_clean stride room parameters n t.now }
{
    clauses::rows_within(t, stride, n, parameters)
        && clauses::zero_between(t, n * stride, room * stride)
}

// The seen table, none of whose rows is empty: of rows that ascend only the first can be, so that one is found before the room
// past them is read.
fn seen_stands(seen: &[u32], n: usize, parameters: usize) -> bool
    ensures { result ≡ seen_stands parameters n seen.now }
{
    let room = rooms::seen_room(seen);
    if !rows_ordered(seen, SEEN_STRIDE, room, n) {
        return false;
    }
    clauses::rows_bound(seen, n) && rows_clean(seen, SEEN_STRIDE, room, n, parameters)
}

// The kept table, whose rows may be empty.
fn kept_stands(kept: &[u32], m: usize, parameters: usize) -> bool
    ensures { result ≡ kept_stands parameters m kept.now }
{
    let room = rooms::kept_room(kept);
    rows_ordered(kept, KEPT_STRIDE, room, m) && rows_clean(kept, KEPT_STRIDE, room, m, parameters)
}

// Whether the session is taken; where not, it is refused 12. It takes the counts of parameters and states and the hopeful
// states, as bits, of a property that is taken.
pub fn sound(
    parameters: usize,
    states: usize,
    hopeful: u64,
    seen: &[u32],
    n: usize,
    kept: &[u32],
    m: usize,
) -> bool
    requires { states ≤ most_states }
    ensures { result ≡ sound_by parameters states (holds hopeful) (session_of n m seen.now kept.now) }
{
    if !seen_stands(seen, n, parameters) {
        return false;
    }
    let seen = Seen {
        numbers: seen,
        count: n,
    };
    kept_stands(kept, m, parameters) && rows_rightly_kept(kept, m, states, hopeful, seen)
}
