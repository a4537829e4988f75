// What an event comes to before anything is written (document 01, "One event"): the rows of both tables after it, its reports,
// and the refusal for want of room, 15 to 17. "Room freed by an event serves the same event". Above `moves`.
// Interior: `come_to` and `foresee`, for a session that was judged.

#![tactic(auto)]

ghost use Rattle.std.specs.Prelude.{◌*◌, ◌≡◌, drop};
ghost use Rattle.document.specs.Limits.{width, kept_stride};
ghost use Rattle.document.specs.Tables.{seen_rows, report_room};
ghost use Rattle.slices.specs.TablesLaws.{kept_at};
ghost use Rattle.tables.specs.Tables.{kept_from};
ghost use Rattle.moves.specs.Ready.{Ready, RowReady, Steady};
ghost use Rattle.foreseen.specs.Foreseen.{weight_of, tally_of, room_refusal, comes_to, foreseen_of};

use limits::{Combination, KEPT_STRIDE, REPORT_STRIDE, WIDTH};
use moves::{Event, Known};
use ordered::Seen;
use refusals::Refusal;

// What a kept row adds to the kept rows after an event, and to its reports.
#[derive(Clone, Copy)]
pub struct Weight {
    pub kept: usize,
    pub reported: usize,
}

// Rows that there is room for.
#[derive(Clone, Copy)]
pub struct Rooms {
    pub seen: usize,
    pub kept: usize,
    pub reports: usize,
}

// What an event comes to: the rows of both tables after it; its reports; and whether its binding is neither empty nor seen.
#[derive(Clone, Copy)]
pub struct Foreseen {
    pub seen: usize,
    pub kept: usize,
    pub reported: usize,
    pub fresh: bool,
}

// That there is no room for an event: the refusal, and what the event comes to all the same.
#[derive(Clone, Copy)]
pub struct Crowded {
    pub refusal: Refusal,
    pub outcome: Foreseen,
}

// What kept row i adds.
fn weigh(known: &Known, seen: Seen, kept: &[u32], i: usize, event: &Event) -> Weight
    requires { RowReady known.now.next known.now.states event.now.number seen.count i event.now.binding seen.numbers.now kept.now event.now.fresh }
    ensures { result ≡ weight_of known.now.next known.now.hopeful known.now.asked event.now.number event.now.binding (seen_rows seen.entry.count seen.entry.numbers.now) (kept_at width kept.now (i * kept_stride)) }
{
    let at = i * KEPT_STRIDE;
    let k = bound::row_at(kept, at);
    let stays = !combos::includes(k, event.binding);
    if stays && !event.creates(k, seen) {
        return Weight {
            kept: 1,
            reported: 0,
        };
    }
    let to = known.next_state(kept[at + WIDTH], event.number);
    Weight {
        kept: usize::from(known.is_hopeful(to)) + usize::from(stays),
        reported: usize::from(known.is_asked(to)),
    }
}

// The kept rows after the event, and its reports, counted.
fn tally(known: &Known, seen: Seen, kept: &[u32], m: usize, event: &Event) -> Weight
    requires { Ready known.now.next known.now.states event.now.number seen.count m event.now.binding seen.numbers.now kept.now event.now.fresh }
    ensures { result ≡ tally_of known.now.next known.now.hopeful known.now.asked event.now.number event.now.binding (seen_rows seen.entry.count seen.entry.numbers.now) (kept_from m kept.now 0) }
{
    let mut total = Weight {
        kept: 0,
        reported: 0,
    };
    for i in 0..m {
        let w = weigh(known, seen, kept, i, event);
        total.kept += w.kept;
        total.reported += w.reported;
    }
    total
}

// How many reports there is room for from a report number on.
pub fn report_room(reports: &[u32], from: usize) -> usize
    ensures { result ≡ report_room (drop from reports.now) }
{
    reports.len().saturating_sub(from) / REPORT_STRIDE
}

impl Rooms {
    // Whether they hold what an event comes to, in the order of the refusals.
    fn hold(self, o: Foreseen) -> Result<(), Refusal>
        ensures { result ≡ room_refusal o.seen self.seen o.kept self.kept o.reported self.reports }
    {
        if self.seen < o.seen {
            Err(Refusal::NoRoomForSeen)
        } else if self.kept < o.kept {
            Err(Refusal::NoRoomForKept)
        } else if self.reports < o.reported {
            Err(Refusal::NoRoomForReports)
        } else {
            Ok(())
        }
    }
}

// What an event with this binding comes to in a session that is sound, whatever room there is.
pub fn come_to(
    known: &Known,
    seen: Seen,
    kept: &[u32],
    m: usize,
    e: usize,
    b: Combination,
) -> Foreseen
    requires { Steady known.now.next known.now.states e seen.count m seen.numbers.now kept.now }
    ensures { result ≡ comes_to known.now.next known.now.hopeful known.now.asked seen.entry.count m seen.entry.numbers.now kept.now e b }
{
    let fresh = moves::is_new(b, seen);
    let event = Event {
        number: e,
        binding: b,
        fresh,
    };
    let w = tally(known, seen, kept, m, &event);
    Foreseen {
        seen: seen.count + usize::from(fresh),
        kept: w.kept,
        reported: w.reported,
        fresh,
    }
}

// The same, with the refusal beside it where there is no room for it. Nothing is written.
pub fn foresee(
    known: &Known,
    seen: Seen,
    kept: &[u32],
    m: usize,
    reports: &[u32],
    from: usize,
    e: usize,
    b: Combination,
) -> Result<Foreseen, Crowded>
    requires { Steady known.now.next known.now.states e seen.count m seen.numbers.now kept.now }
    ensures { result ≡ foreseen_of known.now.next known.now.hopeful known.now.asked from seen.entry.count m seen.entry.numbers.now kept.now reports.now e b }
{
    let o = come_to(known, seen, kept, m, e, b);
    let rooms = Rooms {
        seen: rooms::seen_room(seen.numbers),
        kept: rooms::kept_room(kept),
        reports: report_room(reports, from),
    };
    match rooms.hold(o) {
        Ok(()) => Ok(o),
        Err(refusal) => Err(Crowded {
            refusal,
            outcome: o,
        }),
    }
}
