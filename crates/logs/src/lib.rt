// Rows of a log into a session (document 01, "Log rows and the run"): one row, and the run over a log held in memory.
// The face: `row` and `run`, which take every input, judge it in the order of the refusals, and on a refusal leave every lent
// number as it was. Both go by `turns`, row after row.
//
//     row(declarations, p, &mut seen, n, &mut kept, m, &mut reports, b"feed,1,7") answers as the event of the row does;
//     run(declarations, p, &mut seen, n, &mut kept, m, &mut reports, log, at, 10) takes at most ten rows from offset `at` on.

#![tactic(auto)]

ghost use Rattle.document.specs.Log.{row, run};
ghost use Rattle.property.specs.Meaning.{meaning};
ghost use Rattle.judge.specs.Sound.{session_of};
ghost use Rattle.steps.specs.Steps.{Leaves};
ghost use Rattle.turns.specs.Turns.{RunLeaves};

use property::Property;
use refusals::Refusal;
use steps::Answered;
use turns::Ran;

// One row into a session: refused 1 to 5, 11, 25, 12, then 18 to 21, then 15 to 17.
// Stays: C calls it and `run`, so their parameters and answers are C's.
pub fn row(
    declarations: &[u8],
    p: Property,
    seen: &mut [u32],
    n: usize,
    kept: &mut [u32],
    m: usize,
    reports: &mut [u32],
    bytes: &[u8],
) -> Answered
    ensures { Leaves (row declarations.now (meaning p) (session_of n m seen.old kept.old) reports.old bytes.now) (session_of n m seen.old kept.old) reports.old result seen.new kept.new reports.new }
{
    match judging::judge_call(declarations, p, seen, n, kept, m) {
        Ok(call) => turns::step_row(&call, seen, n, kept, m, reports, 0, bytes),
        Err(refusal) => steps::counts_alone(refusal.number(), n, m),
    }
}

// The run over a log held in memory, from an offset, at most `budget` rows: refused 1 to 5, 11, 25, 12, 24, or stopped by the
// refusal of a row.
pub fn run(
    declarations: &[u8],
    p: Property,
    seen: &mut [u32],
    n: usize,
    kept: &mut [u32],
    m: usize,
    reports: &mut [u32],
    log: &[u8],
    at: usize,
    budget: usize,
) -> Ran
    ensures { RunLeaves (run declarations.now (meaning p) (session_of n m seen.old kept.old) reports.old log.now at budget) result seen.new kept.new reports.new }
{
    let call = match judging::judge_call(declarations, p, seen, n, kept, m) {
        Ok(call) => call,
        Err(refusal) => return turns::none_taken(refusal.number(), at, n, m),
    };
    if log.len() < at {
        return turns::none_taken(Refusal::OffsetPastLog.number(), at, n, m);
    }
    let mut r = turns::none_taken(refusals::TAKEN, at, n, m);
    // Stays: each row says where the next begins.
    while r.taken < budget && r.next < log.len() {
        r = turns::take_row(&call, seen, kept, reports, log, r);
        if r.refusal != refusals::TAKEN {
            return r;
        }
    }
    r
}
