// A whole pattern text (document 01, "The pattern text"): `ere`, a colon, what the readers of `pattern` read, and the verdicts
// asked for.
// Interior: the crate `translate` reads a pattern with `parse`.

#![tactic(auto)]

ghost use Rattle.std.specs.Prelude.{◌≡◌};
ghost use Rattle.document.specs.Classes.{ere_word};
ghost use Rattle.document.specs.Tokens.{is_word_of};
ghost use Rattle.document.specs.Reading.{parse, next_is};
ghost use Rattle.parts.specs.Parts.{AnsweredAs, events_of};
ghost use Rattle.tokens.specs.Lexing.{lexemes_at};
ghost use Rattle.tokens.specs.Steps.{Begins, Looks};
ghost use Rattle.asking.specs.Texts.{asked_by, parsed_of, Asks};

use parts::{Part, Source, Stopped, refused_at};
use refusals::Refusal;
use sets::Shape;
use tokens::{Kind, Step};
use verdicts::{ALL_ASKED, Verdict};

const ERE: &[u8] = b"ere";

// What a pattern text says: the set of the verdicts asked for and the shape of the pattern.
#[derive(Clone, Copy)]
pub struct Parsed {
    pub asked: u8,
    pub shape: Shape,
}

// Whether the token at a place is `ere`.
fn is_ere(text: &[u8], at: usize, t: Step) -> bool
    requires { Looks text.now at t }
    ensures { result ≡ next_is (is_word_of ere_word) (lexemes_at text.now at) }
{
    t.kind == Kind::Word && &text[at..t.end] == ERE
}

// The verdict that a token of this kind asks for.
fn asked_by(kind: Kind) -> Option<Verdict>
    ensures { result ≡ asked_by kind }
{
    match kind {
        Kind::AskMatch => Some(Verdict::Match),
        Kind::AskFail => Some(Verdict::Fail),
        _ => None,
    }
}

// After the pattern: `@match`, `@fail` or both, each once, in either order, and nothing more.
#[inline(always)]
fn asks(text: &[u8], a: Part) -> Result<Parsed, Stopped>
    requires { Begins text.now a.at }
    ensures { Asks text.now a result }
{
    let shape = a.shape;
    let t = tokens::look(text, a.at);
    let Some(first) = asked_by(t.kind) else {
        return Err(refused_at(Refusal::NotOfGrammar, a.at));
    };
    if text.len() <= t.next {
        return Ok(Parsed {
            asked: first.asked(),
            shape,
        });
    }
    let u = tokens::look(text, t.next);
    match asked_by(u.kind) {
        Some(second) if second != first => {}
        _ => return Err(refused_at(Refusal::NotOfGrammar, t.next)),
    }
    if u.next < text.len() {
        return Err(refused_at(Refusal::NotOfGrammar, u.next));
    }
    Ok(Parsed {
        asked: ALL_ASKED,
        shape,
    })
}

// A whole pattern text: `ere`, `:`, an alternative, and the verdicts asked for.
pub fn parse(source: &Source) -> Result<Parsed, Stopped>
    ensures { AnsweredAs parsed_of (parse (events_of source.now) source.now.text.now) result }
{
    let text = source.text;
    let start = tokens::skip(text, 0);
    let ere = tokens::look(text, start);
    if !is_ere(text, start, ere) {
        return Err(refused_at(Refusal::NotOfGrammar, start));
    }
    let colon = tokens::look(text, ere.next);
    if colon.kind != Kind::Colon {
        return Err(refused_at(Refusal::NotOfGrammar, ere.next));
    }
    let a = pattern::alternative(source, colon.next, 0, 0)?;
    asks(text, a)
}
