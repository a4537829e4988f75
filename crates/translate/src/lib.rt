// From the declarations and a pattern text to the property table, or the refusal (document 01, "The pattern text" and "The
// table"). Refusals come in the document's order: the declarations' 1 to 5, the pattern's 1, then 6 to 9 by offset, then 10.
// It leans on `declaring`, `asking` and `states`. The face: `translate`.
//
//     With the events mix, feed and drain declared, the pattern `ere : mix feed+ drain @match` gives a table of 5 states;
//     `ere : mix feed+ (drain @match` is refused 6 at offset 23, the place of `@match`.

#![tactic(auto)]

ghost use Rattle.std.specs.Prelude.{◌≡◌, ◌≤◌};
ghost use Rattle.document.specs.Limits.{most_events};
ghost use Rattle.document.specs.Translate.{translate};
ghost use Rattle.parts.specs.Parts.{AnsweredAs};
ghost use Rattle.translate.specs.Translations.{held, refused_table, translated_of, Tables};

use asking::Parsed;
use limits::{MOST_EVENTS, MOST_STATES, TRANSITIONS};
use parts::{Source, Stopped, refused_at};
use places::Names;
use property::Property;
use readings::Reading;
use refusals::Refusal;
use states::Table;

// Stays: hosts in C read it (`gorrindatz_translate`), so a number stands for the refusal.
// What is translated: the table; or a refusal's number, its offset for 6 to 9, and a table of zeros.
#[repr(C)]
#[derive(Clone, Copy)]
pub struct Translated {
    pub refusal: u8,
    pub at: usize,
    pub property: Property,
}

#[inline(always)]
fn refused_table(refusal: u8, at: usize) -> Translated
    ensures { result ≡ refused_table refusal at }
{
    Translated {
        refusal,
        at,
        property: Property {
            parameters: 0,
            events: 0,
            states: 0,
            asked: 0,
            sets: [0; MOST_EVENTS],
            next: [0; TRANSITIONS],
            verdicts: [0; MOST_STATES],
        },
    }
}

// The property table from declarations and a pattern that were read, or 10.
#[inline(always)]
fn table_of(d: Reading, t: Parsed) -> Result<Property, Stopped>
    requires { d.events ≤ most_events }
    ensures { Tables d t result }
{
    let Reading {
        parameters,
        events,
        sets,
        ..
    } = d;
    let Some(table) = states::table_of(t.shape, events, states::TOTAL) else {
        return Err(refused_at(Refusal::TooManyStates, 0));
    };
    let Table {
        states,
        next,
        verdicts,
    } = table;
    Ok(Property {
        parameters,
        events,
        states,
        asked: t.asked,
        sets,
        next,
        verdicts,
    })
}

// The property table of a pattern over the declared events, or what stops the translation.
// Stays: the two texts have one lifetime by name, since a source holds both at one.
#[inline(always)]
fn read<'a>(declarations: &'a [u8], pattern: &'a [u8]) -> Result<Property, Stopped>
    ensures { AnsweredAs held (translate declarations.now pattern.now) result }
{
    let d = declaring::read(declarations).map_err(|refusal| refused_at(refusal, 0))?;
    if declaring::TEXT_BYTES < pattern.len() {
        return Err(refused_at(Refusal::TextTooLong, 0));
    }
    let events = Names {
        text: declarations,
        places: &d.places,
        count: d.events,
    };
    let source = Source {
        text: pattern,
        events,
    };
    let t = asking::parse(&source)?;
    table_of(d, t)
}

// The property table of a pattern over the declared events, or the refusal.
pub fn translate(declarations: &[u8], pattern: &[u8]) -> Translated
    ensures { result ≡ translated_of (translate declarations.now pattern.now) }
{
    match read(declarations, pattern) {
        Ok(property) => Translated {
            refusal: 0,
            at: 0,
            property,
        },
        Err(stopped) => refused_table(stopped.refusal.number(), stopped.at),
    }
}
