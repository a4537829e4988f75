// Lookup in a session over lent tables (document 01, "One event"). A call of the face: it takes every input, judges it in the
// order of the refusals, and writes nothing. Above `judge` and `known`.
//
//     lookup(p, &seen, n, &kept, m, c) answers the kept state of the join of the seen bindings that c includes, and its verdict.

#![tactic(auto)]

ghost use Rattle.std.specs.Prelude.{◌≡◌, false};
ghost use Rattle.document.specs.Tables.{kept_rows};
ghost use Rattle.document.specs.Session.{lookup};
ghost use Rattle.property.specs.Meaning.{meaning};
ghost use Rattle.judge.specs.Sound.{session_of};
ghost use Rattle.finding.specs.Finds.{looked_up, looked_by, Findable, found_by};

use limits::{Combination, KEPT_STRIDE, WIDTH};
use moves::Known;
use ordered::Seen;
use property::Property;
use refusals::Refusal;

// What lookup answers: the number of refusal, or 0; whether the combination's join is kept; and its state and verdict.
// Stays: a struct of C (`gorrindatz_lookup`), so a number and a flag stand for the refusal and for what is held.
#[repr(C)]
#[derive(Clone, Copy)]
pub struct Looked {
    pub refusal: u8,
    pub held: bool,
    pub state: u32,
    pub verdict: u8,
}

// The kept state of a combination and its verdict; nothing where it is not kept.
#[inline(always)]
fn find_kept(known: &Known, kept: &[u32], m: usize, c: Combination) -> Option<(u32, u8)>
    requires { Findable m kept.now }
    ensures { result ≡ found_by known.now.verdicts c (kept_rows m kept.now) }
{
    let row = ordered::place(kept, 0, KEPT_STRIDE, m, c);
    let at = row * KEPT_STRIDE;
    if m <= row || !combos::equal(bound::row_at(kept, at), c) {
        return None;
    }
    let state = kept[at + WIDTH];
    Some((state, known.verdicts[state as usize]))
}

// The kept state of the join of the seen bindings that a combination includes, and its verdict; refused 11, 12, 23.
#[inline(always)]
fn find(
    p: Property,
    seen: &[u32],
    n: usize,
    kept: &[u32],
    m: usize,
    c: Combination,
) -> Result<Option<(u32, u8)>, Refusal>
    ensures { looked_by result ≡ looked_up (lookup (meaning p) (session_of n m seen.now kept.now) c) }
{
    let taken = p.taken()?;
    let known = known::judged(&taken, seen, n, kept, m)?;
    if !bound::zero_past(p.parameters, c) {
        return Err(Refusal::BadLookup);
    }
    let seen = Seen {
        numbers: seen,
        count: n,
    };
    Ok(find_kept(&known, kept, m, joins::join_seen(c, seen)))
}

// The same, as C is told it.
pub fn lookup(p: Property, seen: &[u32], n: usize, kept: &[u32], m: usize, c: Combination) -> Looked
    ensures { result ≡ looked_up (lookup (meaning p) (session_of n m seen.now kept.now) c) }
{
    let (refusal, found) = match find(p, seen, n, kept, m, c) {
        Ok(found) => (refusals::TAKEN, found),
        Err(refusal) => (refusal.number(), None),
    };
    let (state, verdict) = found.unwrap_or((0, 0));
    Looked {
        refusal,
        held: found.is_some(),
        state,
        verdict,
    }
}
