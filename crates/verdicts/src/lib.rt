// The verdicts (document 01, "The pattern text"): one name each, with their numbers, which are those of
// crates/document/specs/Patterns.antt. A table has them as bytes, a report as numbers; those asked for are a set of them.

#![tactic(auto)]

ghost use Rattle.std.specs.Prelude.{◌≡◌};
ghost use Rattle.verdicts.specs.Verdicts.{asked_of, Reads};

#[derive(Clone, Copy, Debug, PartialEq, Eq)]
pub enum Verdict {
    // Neither of the others.
    Undecided = 0,

    // The sequence is a word of the pattern.
    Match = 1,

    // No word of the pattern begins with the sequence.
    Fail = 2,
}

// The set of all that can be asked for: a bit for each verdict past undecided.
pub const ALL_ASKED: u8 = (1 << Verdict::Fail as u8) - 1;

// A number that is no verdict's.
#[derive(Clone, Copy, Debug, PartialEq, Eq)]
pub struct NoVerdict(pub u8);

impl TryFrom<u8> for Verdict {
    type Error = NoVerdict;

    ghost try_from_gives = { Reads };

    fn try_from(number: u8) -> Result<Self, NoVerdict> {
        match number {
            0 => Ok(Verdict::Undecided),
            1 => Ok(Verdict::Match),
            2 => Ok(Verdict::Fail),
            _ => Err(NoVerdict(number)),
        }
    }
}

impl Verdict {
    // The set of this verdict alone, as it is asked for: bit 0 for match, bit 1 for fail. Undecided is never asked for.
    pub fn asked(self) -> u8
        ensures { result ≡ asked_of self }
    {
        match self {
            Verdict::Undecided => 0,
            Verdict::Match => 1,
            Verdict::Fail => 2,
        }
    }
}
