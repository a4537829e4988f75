// A pattern (document 01, "The pattern text"): four readers that call each other. A reader answers the `Part` that it read, or
// what stops it. It is lent the pattern text and the names of the declared events.

#![tactic(auto)]

ghost use Rattle.document.specs.Reading.{read_alternative, read_sequence, read_repetition, read_atom};
ghost use Rattle.parts.specs.Parts.{Ready, Answers, events_of};

use parts::{Part, Source, Stopped, refused_at};
use refusals::Refusal;
use tokens::Kind;

// "a parenthesis opened while 16 are open" is refused.
pub const MOST_OPEN: usize = 16;

// An event name, `epsilon`, or an alternative in parentheses. The nesting is judged before the alternative is read. What remains
// is a call for each part side by side or between bars: at most some 510, of `epsilon`, in 4,096 bytes.
#[cycle(alternative_atom_repetition_sequence)]
#[inline(always)]
pub fn atom(source: &Source, at: usize, names: usize, depth: usize) -> Result<Part, Stopped>
    requires { Ready source.now.text.now at names }
    ensures { Answers (read_atom (events_of source.now)) 0 source.now.text.now at names depth result }
{
    let t = tokens::look(source.text, at);
    if t.kind == Kind::Word {
        return parts::word(source, at, t, names);
    }
    if t.kind != Kind::Opening {
        return Err(refused_at(Refusal::NotOfGrammar, at));
    }
    if MOST_OPEN <= depth {
        return Err(refused_at(Refusal::TooDeep, at));
    }
    let a = alternative(source, t.next, names, depth + 1)?;
    let u = tokens::look(source.text, a.at);
    if u.kind != Kind::Closing {
        return Err(refused_at(Refusal::NotOfGrammar, a.at));
    }
    Ok(Part { at: u.next, ..a })
}

// An atom followed by any number of `*` or `+`.
#[cycle(alternative_atom_repetition_sequence)]
pub fn repetition(source: &Source, at: usize, names: usize, depth: usize) -> Result<Part, Stopped>
    requires { Ready source.now.text.now at names }
    ensures { Answers (read_repetition (events_of source.now)) 1 source.now.text.now at names depth result }
{
    let a = atom(source, at, names, depth)?;
    Ok(parts::marks(source.text, a))
}

// One or more repetitions side by side.
#[cycle(alternative_atom_repetition_sequence)]
pub fn sequence(source: &Source, at: usize, names: usize, depth: usize) -> Result<Part, Stopped>
    requires { Ready source.now.text.now at names }
    ensures { Answers (read_sequence (events_of source.now)) 2 source.now.text.now at names depth result }
{
    let a = repetition(source, at, names, depth)?;
    let t = tokens::look(source.text, a.at);
    if !t.kind.begins_atom() {
        return Ok(a);
    }
    let b = sequence(source, a.at, a.names, depth)?;
    let shape = sets::sequence(a.shape, b.shape);
    Ok(Part { shape, ..b })
}

// One or more sequences separated by `|`.
#[cycle(alternative_atom_repetition_sequence)]
pub fn alternative(source: &Source, at: usize, names: usize, depth: usize) -> Result<Part, Stopped>
    requires { Ready source.now.text.now at names }
    ensures { Answers (read_alternative (events_of source.now)) 3 source.now.text.now at names depth result }
{
    let a = sequence(source, at, names, depth)?;
    let t = tokens::look(source.text, a.at);
    if t.kind != Kind::Bar {
        return Ok(a);
    }
    let b = alternative(source, t.next, a.names, depth)?;
    let shape = sets::alternative(a.shape, b.shape);
    Ok(Part { shape, ..b })
}
