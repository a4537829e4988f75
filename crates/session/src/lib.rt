// One event in a session over lent tables (document 01, "One event"). A call of the face: it takes every input, judges it in the
// order of the refusals, and on a refusal leaves every lent number as it was. Above `judge`, `known` and `steps`; a session is
// started by `starting`, and looked into by `finding`.
//
//     event(p, &mut seen, n, &mut kept, m, &mut reports, e, values) answers the counts after the event, and its reports.

#![tactic(auto)]

ghost use Rattle.std.specs.Prelude.{MatchResult};
ghost use Rattle.document.specs.Session.{event};
ghost use Rattle.property.specs.Meaning.{meaning};
ghost use Rattle.judge.specs.Sound.{session_of};
ghost use Rattle.steps.specs.Steps.{Leaves};
ghost use Rattle.session.specs.Events.{Judged, EventRefused};

use limits::Combination;
use moves::Known;
use property::Property;
use refusals::Refusal;
use steps::Answered;

// What is known of the table, where the event may be stepped; refused 11, 12, 13, 14.
#[inline(always)]
fn judge_event(
    p: Property,
    seen: &[u32],
    n: usize,
    kept: &[u32],
    m: usize,
    e: usize,
    values: Combination,
) -> Result<Known, Refusal>
    ensures { MatchResult result (λ k. Judged (meaning p) (session_of n m seen.now kept.now) e values k) (λ r. EventRefused (meaning p) (session_of n m seen.now kept.now) e values r) }
{
    let taken = p.taken()?;
    let known = known::judged(&taken, seen, n, kept, m)?;
    if p.events <= e {
        return Err(Refusal::NoSuchEvent);
    }
    if !bound::binds_exactly(u64::from(p.sets[e]), values) {
        return Err(Refusal::WrongValues);
    }
    Ok(known)
}

// One event with its values: refused 11, 12, 13, 14, then 15 to 17.
pub fn event(
    p: Property,
    seen: &mut [u32],
    n: usize,
    kept: &mut [u32],
    m: usize,
    reports: &mut [u32],
    e: usize,
    values: Combination,
) -> Answered
    ensures { Leaves (event (meaning p) (session_of n m seen.old kept.old) reports.old e values) (session_of n m seen.old kept.old) reports.old result seen.new kept.new reports.new }
{
    match judge_event(p, seen, n, kept, m, e, values) {
        Ok(known) => steps::step(&known, seen, n, kept, m, reports, 0, e, values),
        Err(refusal) => steps::counts_alone(refusal.number(), n, m),
    }
}
