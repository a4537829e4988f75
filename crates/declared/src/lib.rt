// Declarations: what they say or are refused for (1 to 5), the header of a log (22), and names given back as parts of the two
// texts (document 01, "The declarations", "Log rows and the run"). All of it is the face; it leans on `declaring`.
//
//     declarations(b"event,bay\r\nfeed,1\r\n") has 1 parameter and 1 event, whose set is 1; event_name gives its part `feed`.

#![tactic(auto, using(fields::specs::PlacesLaws::told_part))]

ghost use Rattle.std.specs.Prelude.{◌≡◌, ◌+◌};
ghost use Rattle.document.specs.Refusals.{refusal_of};
ghost use Rattle.document.specs.Declarations.{declarations, header, event_name, name_at};
ghost use Rattle.fields.specs.Places.{PartAt, ToldAt, place_from};
ghost use Rattle.declared.specs.Answers.{declared_of, event_start};

use fields::Part;
use limits::{EventSets, MOST_EVENTS};
use refusals::Refusal;

// What declarations say: a refusal's number and nothing else, or the counts, and for each event the set of its parameters.
// Stays: a struct of C (`gorrindatz_declarations`), so a number stands for the refusal.
#[repr(C)]
#[derive(Clone, Copy)]
pub struct Declared {
    pub refusal: u8,
    pub parameters: usize,
    pub events: usize,
    pub sets: EventSets,
}

// What declarations say: the number of their refusal, or their counts and sets.
pub fn declarations(text: &[u8]) -> Declared
    ensures { result ≡ declared_of (declarations text.now) }
{
    match declaring::read(text) {
        Ok(t) => {
            // Stays: an array of what a match binds gets no proof where it is put into a literal straight.
            let sets = t.sets;
            Declared {
                refusal: 0,
                parameters: t.parameters,
                events: t.events,
                sets,
            }
        }
        Err(refusal) => Declared {
            refusal: refusal.number(),
            parameters: 0,
            events: 0,
            sets: [0; MOST_EVENTS],
        },
    }
}

// Whether a row is the header of the declarations: 0, or the number of the refusal. The row comes without its line end.
pub fn header(declarations: &[u8], row: &[u8]) -> u8
    ensures { result ≡ refusal_of (header declarations.now row.now) }
{
    match declaring::read(declarations) {
        Ok(_) if row == &declarations[..rows::row_end(declarations, 0)] => 0,
        Ok(_) => Refusal::HeaderDiffers.number(),
        Err(refusal) => refusal.number(),
    }
}

// Where the name of an event lies in the declarations, by its number.
pub fn event_place(declarations: &[u8], event: usize) -> Part
    ensures { ToldAt declarations.now (event_start declarations.now event) (event_name declarations.now event) result }
{
    match declaring::read(declarations) {
        Ok(t) if event < t.events => t.places[event],
        _ => Part { start: 0, size: 0 },
    }
}

// The name of an event by its number, as a part of the declarations; where there is none, the empty part at their start.
// Stays: both texts are lent here and in `pattern_name`, calls of the face whose single answers are proved
// (`event_name_single`, `pattern_name_single`): the lifetime of the answer says of which text it is a part.
pub fn event_name<'a, 'b>(declarations: &'a [u8], pattern: &'b [u8], event: usize) -> &'a [u8]
    ensures { PartAt declarations.entry (event_start declarations.now event) (event_name declarations.now event) result }
{
    event_place(declarations, event).of(declarations)
}

// Where the name at an offset of a pattern text lies in it.
pub fn pattern_place(pattern: &[u8], at: usize) -> Part
    ensures { ToldAt pattern.now (place_from at (name_at pattern.now at)) (name_at pattern.now at) result }
{
    if pattern.len() <= at || !classes::is_letter(pattern[at]) {
        return Part { start: 0, size: 0 };
    }
    Part {
        start: at,
        size: names::name_end(pattern, at) - at,
    }
}

// The name at an offset of the pattern text, as a part of it; where there is none, the empty part at its start.
pub fn pattern_name<'a, 'b>(declarations: &'a [u8], pattern: &'b [u8], at: usize) -> &'b [u8]
    ensures { PartAt pattern.entry (place_from at (name_at pattern.now at)) (name_at pattern.now at) result }
{
    pattern_place(pattern, at).of(pattern)
}
