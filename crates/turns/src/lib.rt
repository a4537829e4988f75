// One row of a log into a session that was judged (document 01, "Log rows and the run"): the row as it is read, its event
// stepped; and one row more of a run, which says where the next one begins.
// Interior: `step_row` for whoever takes rows one by one and has judged once, `take_row` for the run.

#![tactic(auto)]

ghost use Rattle.std.specs.Prelude.{◌≡◌};
ghost use Rattle.judge.specs.Sound.{session_of};
ghost use Rattle.steps.specs.Steps.{Leaves};
ghost use Rattle.turns.specs.Stepping.{row_step_by, RowGoes};
ghost use Rattle.turns.specs.Turns.{RunLeaves, turn_by, Onward};

use judging::Judged;
use limits::KEPT_STRIDE;
use places::Names;
use steps::Answered;

// One row into a session that is sound: 18 to 21, then 15 to 17.
// Stays: the tables and their counts are parameters, as those of `steps::step`.
pub fn step_row(
    call: &Judged,
    seen: &mut [u32],
    n: usize,
    kept: &mut [u32],
    m: usize,
    reports: &mut [u32],
    from: usize,
    row: &[u8],
) -> Answered
    requires { RowGoes call.now n m seen.old kept.old }
    ensures { Leaves (row_step_by call.now from (session_of n m seen.old kept.old) reports.old row.now) (session_of n m seen.old kept.old) reports.old result seen.new kept.new reports.new }
{
    let reading = &call.reading;
    let names = Names {
        text: call.declarations,
        places: &reading.places,
        count: reading.events,
    };
    match entries::read_row(&names, &reading.sets, reading.parameters, row) {
        Ok(entry) => steps::step(
            &call.known,
            seen,
            n,
            kept,
            m,
            reports,
            from,
            entry.event,
            entry.values,
        ),
        Err(refusal) => steps::counts_alone(refusal.number(), n, m),
    }
}

// One row more of a run -------------------------------------------------------------------------------------------------

// What the run answers: the number of the refusal that stopped it, or 0; the rows taken and the next offset; the rows of both
// tables that count now; and the reports made.
// Stays: a struct of C, so the refusal is a number.
#[repr(C)]
#[derive(Clone, Copy)]
pub struct Ran {
    pub refusal: u8,
    pub taken: usize,
    pub next: usize,
    pub seen: usize,
    pub kept: usize,
    pub reported: usize,
}

// A run that took no row, over a session of these counts.
pub fn none_taken(refusal: u8, at: usize, n: usize, m: usize) -> Ran
    ensures { result ≡ record { refusal = refusal; taken = 0; next = at; seen = n; kept = m; reported = 0 } }
{
    Ran {
        refusal,
        taken: 0,
        next: at,
        seen: n,
        kept: m,
        reported: 0,
    }
}

// The row at the next offset of a run that has come so far: taken, or the refusal that stops the run before it.
pub fn take_row(
    call: &Judged,
    seen: &mut [u32],
    kept: &mut [u32],
    reports: &mut [u32],
    log: &[u8],
    r: Ran,
) -> Ran
    requires { RowGoes call.now r.seen r.kept seen.old kept.old × Onward r log.now reports.old }
    ensures { RunLeaves (turn_by call.now log.now r.taken r.next (session_of r.seen r.kept seen.old kept.old) reports.old r.reported) result seen.new kept.new reports.new }
{
    let end = rows::row_end(log, r.next);
    let a = step_row(
        call,
        seen,
        r.seen,
        kept,
        r.kept,
        reports,
        r.reported * KEPT_STRIDE,
        &log[r.next..end],
    );
    if a.refusal != refusals::TAKEN {
        return Ran {
            refusal: a.refusal,
            ..r
        };
    }
    let after = rows::next_row(log, end);
    Ran {
        refusal: refusals::TAKEN,
        taken: r.taken + 1,
        next: after,
        seen: a.seen,
        kept: a.kept,
        reported: r.reported + a.reported,
    }
}
