// Tokens of a pattern text (document 01, "The pattern text"): what stands at a place, and where it ends.
// Interior: the readers of the crate `pattern` go from token to token with it.

#![tactic(auto)]

ghost use Rattle.std.specs.Prelude.{◌≡◌, ◌+◌, ◌≤◌, length, drop};
ghost use Rattle.document.specs.Lists.{take_while};
ghost use Rattle.document.specs.Classes.{is_blank};
ghost use Rattle.classes.specs.Numbers.{number};
ghost use Rattle.tokens.specs.Lexing.{mark_kind, ask_here, token_here, begins_kind};
ghost use Rattle.tokens.specs.Steps.{Begins, Looks};

use classes::Class;

const MATCH: &[u8] = b"match";

const FAIL: &[u8] = b"fail";

// What can stand at a place: a name, a mark, `@match` or `@fail`, what begins no token, or the text's end.
#[derive(Clone, Copy, Debug, PartialEq, Eq)]
pub enum Kind {
    Word,
    Opening,
    Closing,
    Colon,
    Bar,
    Star,
    Plus,
    AskMatch,
    AskFail,
    Nothing,
    End,
}

impl Kind {
    // The mark of a class, if it has one.
    #[inline(always)]
    fn of_mark(class: Class) -> Kind
        ensures { result ≡ mark_kind (number class) }
    {
        match class {
            Class::Opening => Kind::Opening,
            Class::Closing => Kind::Closing,
            Class::Colon => Kind::Colon,
            Class::Bar => Kind::Bar,
            Class::Star => Kind::Star,
            Class::Plus => Kind::Plus,
            _ => Kind::Nothing,
        }
    }

    // Whether a repetition can begin with a token of this kind: a name, `epsilon` or `(`.
    pub fn begins_atom(self) -> bool
        ensures { result ≡ begins_kind self }
    {
        matches!(self, Kind::Word | Kind::Opening)
    }
}

// What stands at a place: its kind, and the place after it.
#[derive(Clone, Copy)]
pub struct Token {
    pub kind: Kind,
    pub end: usize,
}

// The same, with the place of the token after it.
#[derive(Clone, Copy)]
pub struct Step {
    pub kind: Kind,
    pub end: usize,
    pub next: usize,
}

// The first place from `at` on that holds no blank, or the text's end.
pub fn skip(s: &[u8], at: usize) -> usize
    ensures { result ≡ at + length (take_while is_blank (drop at s.now)) }
{
    names::run_end(s, at, classes::is_blank)
}

// What stands after an `@`.
fn ask_at(s: &[u8], at: usize) -> Token
    requires { (1 ≤ at) × (at ≤ length s.now) }
    ensures { result ≡ ask_here s.now at }
{
    let rest = &s[at..];
    if rest.starts_with(MATCH) {
        Token {
            kind: Kind::AskMatch,
            end: at + MATCH.len(),
        }
    } else if rest.starts_with(FAIL) {
        Token {
            kind: Kind::AskFail,
            end: at + FAIL.len(),
        }
    } else {
        Token {
            kind: Kind::Nothing,
            end: at,
        }
    }
}

// The token at a place; past the text's end there is none.
#[inline(always)]
pub fn token_at(s: &[u8], at: usize) -> Token
    ensures { result ≡ token_here s.now at }
{
    if s.len() <= at {
        return Token {
            kind: Kind::End,
            end: at,
        };
    }
    let next = at + 1;
    match classes::class_of(s[at]) {
        Class::Letter => Token {
            kind: Kind::Word,
            end: names::name_end(s, at),
        },
        Class::AtSign => ask_at(s, next),
        class => Token {
            kind: Kind::of_mark(class),
            end: next,
        },
    }
}

// The token at the place of one, and the place of the next: all that a reader of tokens asks of the text.
#[inline(always)]
pub fn look(s: &[u8], at: usize) -> Step
    requires { Begins s.now at }
    ensures { Looks s.now at result }
{
    let t = token_at(s, at);
    Step {
        kind: t.kind,
        end: t.end,
        next: skip(s, t.end),
    }
}
