// What is worked out once of a property that is taken: its counts, transitions and verdicts, its hopeful states and those whose
// verdict is asked for (document 01, "The table"); and the session judged by it (12). Above `property`, `moves` and `judge`.

#![tactic(auto)]

ghost use Rattle.std.specs.Prelude.{◌≡◌, true, false, MatchResult};
ghost use Rattle.document.specs.Session.{sound};
ghost use Rattle.property.specs.Meaning.{meaning};
ghost use Rattle.refusals.specs.declared.Refusal.TheVariants.{BadSession};
ghost use Rattle.judge.specs.Sound.{session_of};
ghost use Rattle.known.specs.Knowing.{KnownOf};

use moves::Known;
use property::Taken;
use refusals::Refusal;

// What is worked out once of a property that is taken.
#[inline(always)]
pub fn work_out(taken: &Taken) -> Known
    ensures { KnownOf (meaning taken.now.property) result }
{
    let p = &taken.property;
    Known {
        parameters: p.parameters,
        states: p.states,
        next: p.next,
        verdicts: p.verdicts,
        hopeful: hopes::hopeful(taken),
        asked: hopes::asked_states(taken),
    }
}

// What is known of a table that is taken, over a session that it judges sound; refused 12 where it does not.
#[inline(always)]
pub fn judged(
    taken: &Taken,
    seen: &[u32],
    n: usize,
    kept: &[u32],
    m: usize,
) -> Result<Known, Refusal>
    ensures { MatchResult result (λ k. KnownOf (meaning taken.now.property) k × (sound (meaning taken.now.property) (session_of n m seen.now kept.now) ≡ true)) (λ e. (e ≡ BadSession) × (sound (meaning taken.now.property) (session_of n m seen.now kept.now) ≡ false)) }
{
    let known = work_out(taken);
    if judge::sound(
        known.parameters,
        known.states,
        known.hopeful,
        seen,
        n,
        kept,
        m,
    ) {
        Ok(known)
    } else {
        Err(Refusal::BadSession)
    }
}
