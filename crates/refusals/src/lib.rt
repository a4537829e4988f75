// The refusals (document 01, "Numbers of refusal"): one name each, with their numbers, which are those of
// crates/document/specs/Refusals.antt. A call answers `Err` of one of them; the number is for whoever is told in numbers: hosts in
// C and the lines that are printed.

#![tactic(auto)]

ghost use Rattle.std.specs.Prelude.{◌≡◌};
ghost use Rattle.document.specs.Refusals.{number};
ghost use Rattle.refusals.specs.Named.{named};

#[derive(Clone, Copy, Debug, PartialEq, Eq)]
pub enum Refusal {
    // Declarations or pattern longer than 4,096 bytes.
    TextTooLong = 1,

    // Declarations: a stray CR or LF, a wrong number of fields, a first field other than `event`, a mark other than 0 or 1.
    BadShape = 2,

    // A bad name.
    BadName = 3,

    // A name twice.
    NameTwice = 4,

    // Over 4 parameters, over 16 events, or none.
    OverLimits = 5,

    // Not of the grammar.
    NotOfGrammar = 6,

    // An undeclared event.
    UndeclaredEvent = 7,

    // A 32nd event name in the pattern.
    TooManyNames = 8,

    // A parenthesis opened while 16 are open.
    TooDeep = 9,

    // More than 64 states.
    TooManyStates = 10,

    // Property table: a count, set, state or verdict outside its range, no verdict asked for.
    BadProperty = 11,

    // Session: tables that no session leaves.
    BadSession = 12,

    // Event number not declared.
    NoSuchEvent = 13,

    // Values other than exactly the event's set.
    WrongValues = 14,

    // No room for the seen, the kept, the reports after the event.
    NoRoomForSeen = 15,

    NoRoomForKept = 16,

    NoRoomForReports = 17,

    // Row: over 128 bytes, a CR, LF or quote, a wrong number of fields.
    BadRow = 18,

    // Event name unknown.
    UnknownEvent = 19,

    // A field neither empty nor a value.
    BadValue = 20,

    // Filled fields other than the event's set.
    WrongFields = 21,

    // Log header differs.
    HeaderDiffers = 22,

    // Lookup: a number past the parameters not 0.
    BadLookup = 23,

    // Offset past the log.
    OffsetPastLog = 24,

    // Declarations and property table differ in counts or sets.
    TableDiffers = 25,
}

impl Refusal {
    // Its number (document 01, "Numbers of refusal").
    pub fn number(self) -> u8
        ensures { result ≡ number (named self) }
    {
        self as u8
    }
}

// What stands beside an answer that C reads, in the place of a refusal's number, where nothing is refused.
pub const TAKEN: u8 = 0;
