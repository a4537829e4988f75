// The start of a session over lent tables (document 01, "One event"). A call of the face: it takes every input, and on a refusal
// leaves every lent number as it was.
//
//     start(p, &mut seen, &mut kept) answers the counts of a fresh session, 0 seen rows and 0 or 1 kept rows.

#![tactic(auto)]

ghost use Rattle.std.specs.Prelude.{MatchResult};
ghost use Rattle.document.specs.Session.{start};
ghost use Rattle.property.specs.Meaning.{meaning};
ghost use Rattle.starting.specs.Starts.{FirstRows, StartRefused, StartLeaves};

use limits::{KEPT_STRIDE, SEEN_STRIDE};
use property::Property;
use refusals::{Refusal, TAKEN};
use steps::Answered;

// The kept rows of a fresh session: one, "if state 0 is hopeful". Refused 11, then 16 where there is no room for that row.
#[inline(always)]
fn first_rows(p: Property, kept: &[u32]) -> Result<usize, Refusal>
    ensures { MatchResult result (λ x. FirstRows (meaning p) kept.now x) (λ r. StartRefused (meaning p) kept.now r) }
{
    let taken = p.taken()?;
    let first = usize::from(bits::has(hopes::hopeful(&taken), 0));
    if rooms::kept_room(kept) < first {
        return Err(Refusal::NoRoomForKept);
    }
    Ok(first)
}

// A fresh session: "Start clears both rooms and, if state 0 is hopeful, keeps the empty combination in it", whose row is
// zeros too. Refused 11, 16.
pub fn start(p: Property, seen: &mut [u32], kept: &mut [u32]) -> Answered
    ensures { StartLeaves (start (meaning p) seen.old kept.old) seen.old kept.old result seen.new kept.new }
{
    match first_rows(p, kept) {
        Ok(first) => {
            ordered::clear(seen, 0, rooms::seen_room(seen) * SEEN_STRIDE);
            ordered::clear(kept, 0, rooms::kept_room(kept) * KEPT_STRIDE);
            steps::counts_alone(TAKEN, 0, first)
        }
        Err(refusal) => steps::counts_alone(refusal.number(), 0, 0),
    }
}
