// One event in a session that was judged (document 01, "One event"): in one pass where it creates nothing, else worked out and
// then written down. Interior: for the calls of a session and for a run. Above `foreseen`, `writing` and `advance`.

#![tactic(auto)]

ghost use Rattle.std.specs.Prelude.{◌≡◌};
ghost use Rattle.judge.specs.Sound.{session_of};
ghost use Rattle.moves.specs.Ready.{Steady};
ghost use Rattle.steps.specs.Steps.{step_by, Leaves};

use limits::Combination;
use moves::Known;
use ordered::Seen;

// What a call answers: the number of refusal, or 0; the rows of both tables that count now; and the reports made.
// Stays: a struct of C (`gorrindatz_event`), so a number stands for the refusal; `Leaves` is stated of it.
#[repr(C)]
#[derive(Clone, Copy)]
pub struct Answered {
    pub refusal: u8,
    pub seen: usize,
    pub kept: usize,
    pub reported: usize,
}

// An answer without reports: of a refusal, with "the session counts as given"; of a start that is taken.
pub fn counts_alone(refusal: u8, n: usize, m: usize) -> Answered
    ensures { result ≡ record { refusal = refusal; seen = n; kept = m; reported = 0 } }
{
    Answered {
        refusal,
        seen: n,
        kept: m,
        reported: 0,
    }
}

// One event in a session that is sound. Where it creates nothing and cannot be refused, one pass over the kept rows does it; else
// it is worked out, then written down if there is room.
// Stays: the tables and their counts are parameters, since a struct of three `&mut` slices asks a clause of each one's ghost name
// in every function, which is no plainer; so are an event's number and binding, here and where `moves::Event`, which says besides
// whether the binding is new, is not made yet.
pub fn step(
    known: &Known,
    seen: &mut [u32],
    n: usize,
    kept: &mut [u32],
    m: usize,
    reports: &mut [u32],
    from: usize,
    e: usize,
    b: Combination,
) -> Answered
    requires { Steady known.now.next known.now.states e n m seen.old kept.old }
    ensures { Leaves (step_by known.now.next known.now.verdicts known.now.hopeful known.now.asked from (session_of n m seen.old kept.old) reports.old e b) (session_of n m seen.old kept.old) reports.old result seen.new kept.new reports.new }
{
    let before = Seen {
        numbers: seen,
        count: n,
    };
    if advance::applies(before, m, reports, from, b) {
        let a = advance::advance(known, kept, m, reports, from, e, b);
        return Answered {
            refusal: 0,
            seen: n,
            kept: a.kept,
            reported: a.reported,
        };
    }
    match foreseen::foresee(known, before, kept, m, reports, from, e, b) {
        Ok(o) => {
            writing::write_down(known, seen, n, kept, m, reports, from, e, b, o);
            Answered {
                refusal: 0,
                seen: o.seen,
                kept: o.kept,
                reported: o.reported,
            }
        }
        Err(crowded) => counts_alone(crowded.refusal.number(), n, m),
    }
}
