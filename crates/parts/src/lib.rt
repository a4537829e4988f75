// Parts of a pattern text (document 01, "The pattern text"): what a reader answers, and the steps of the readers that call no
// other reader: an event name or `epsilon`, the marks after an atom.
// A part holds the shape of what was read and the place of the next token. Places are always those of a token, or the text's
// end: `tokens::look` passes the blanks.

#![tactic(auto)]

ghost use Rattle.std.specs.Prelude.{◌≡◌, ℕ};
ghost use Rattle.document.specs.Reading.{read_atom};
ghost use Rattle.tokens.specs.declared.Kind.TheVariants.{Word};
ghost use Rattle.tokens.specs.Steps.{Begins, Looks};
ghost use Rattle.parts.specs.Parts.{Ready, Answers, Marked, events_of, refused_at};

use places::Names;
use refusals::Refusal;
use sets::Shape;
use tokens::{Kind, Step};

// "a 32nd event name in the pattern" is refused.
pub const MOST_NAMES: usize = 31;

const EPSILON: &[u8] = b"epsilon";

// What the readers read: a pattern text, and the names of the declared events.
#[derive(Clone, Copy)]
pub struct Source<'a> {
    pub text: &'a [u8],
    pub events: Names<'a>,
}

// What a reader has read: the place of the next token, how many event names were read up to there, and the shape.
#[derive(Clone, Copy)]
pub struct Part {
    pub at: usize,
    pub names: usize,
    pub shape: Shape,
}

// What stops a reader: a refusal, and its place.
#[derive(Clone, Copy, Debug, PartialEq, Eq)]
pub struct Stopped {
    pub refusal: Refusal,
    pub at: usize,
}

pub fn refused_at(refusal: Refusal, at: usize) -> Stopped
    ensures { result ≡ refused_at refusal at }
{
    Stopped { refusal, at }
}

// An event name, which gets the next number, or `epsilon`, which gets none; 7 before 8.
#[inline(always)]
pub fn word(source: &Source, at: usize, t: Step, names: usize) -> Result<Part, Stopped>
    requires { Ready source.now.text.now at names × (Looks source.now.text.now at t × (t.kind ≡ Word)) }
    ensures { (depth : ℕ) → Answers (read_atom (events_of source.now)) 0 source.now.text.now at names depth result }
{
    let name = &source.text[at..t.end];
    if name == EPSILON {
        return Ok(Part {
            at: t.next,
            names,
            shape: sets::empty(),
        });
    }
    let Some(event) = source.events.find(name) else {
        return Err(refused_at(Refusal::UndeclaredEvent, at));
    };
    if MOST_NAMES <= names {
        return Err(refused_at(Refusal::TooManyNames, at));
    }
    let number = names + 1;
    Ok(Part {
        at: t.next,
        names: number,
        shape: sets::leaf(number, event),
    })
}

// What the `*` and `+` after an atom make of it.
#[inline(always)]
pub fn marks(text: &[u8], a: Part) -> Part
    requires { Begins text.now a.at }
    ensures { Marked text.now a result }
{
    let mut r = a;
    // Stays: it goes from mark to mark, until there is none.
    loop {
        let t = tokens::look(text, r.at);
        match t.kind {
            Kind::Star => r.shape = sets::star(r.shape),
            Kind::Plus => r.shape = sets::plus(r.shape),
            _ => return r,
        }
        r.at = t.next;
    }
}
