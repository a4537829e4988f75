// What row and run judge before they take a row (document 01, "Numbers of refusal"): the declarations (1 to 5), the table (11),
// whether the two agree (25), the session (12). Interior: once per call, whatever the number of rows. Above `declaring`, `known`
// and `judge`.

#![tactic(auto)]

ghost use Rattle.std.specs.Prelude.{◌≡◌, ◌≤◌};
ghost use Rattle.document.specs.Limits.{most_events};
ghost use Rattle.property.specs.Meaning.{meaning};
ghost use Rattle.judge.specs.Sound.{session_of};
ghost use Rattle.judging.specs.Judging.{agrees_by, Judges};

use moves::Known;
use property::Property;
use readings::Reading;
use refusals::Refusal;

// What a call goes by once it was judged good: the declarations that it was given, what they say, and what is known of the table.
#[derive(Clone, Copy)]
pub struct Judged<'a> {
    pub declarations: &'a [u8],
    pub reading: Reading,
    pub known: Known,
}

// Whether declarations and table agree in counts and sets (25).
// Stays: `&Property` with what is asked of its events, since behind `&Taken` the check does not know how many sets there are.
fn table_agrees(reading: &Reading, p: &Property) -> bool
    requires { p.now.events ≤ most_events }
    ensures { result ≡ agrees_by reading.now (meaning p.now) }
{
    p.parameters == reading.parameters
        && p.events == reading.events
        && p.sets[..p.events] == reading.sets[..p.events]
}

// What row and run judge first: 1 to 5, 11, 25, 12.
#[inline(always)]
pub fn judge_call<'a>(
    declarations: &'a [u8],
    p: Property,
    seen: &[u32],
    n: usize,
    kept: &[u32],
    m: usize,
) -> Result<Judged<'a>, Refusal>
    ensures { Judges declarations.now (meaning p) (session_of n m seen.now kept.now) result }
{
    let reading = declaring::read(declarations)?;
    let taken = p.taken()?;
    if !table_agrees(&reading, &taken.property) {
        return Err(Refusal::TableDiffers);
    }
    let known = known::judged(&taken, seen, n, kept, m)?;
    Ok(Judged {
        declarations,
        reading,
        known,
    })
}
