// Widths and limits of document 01 that several crates name, as numbers and types of the code: beside them stand the definitions,
// crates/document/specs/Limits.antt. Document 02 changes some of them. A number that differs from its definition leaves the crates
// that name it unproved. Limits that one crate alone names stand in that crate.

#![tactic(auto)]

// Numbers of a combination, one a parameter ("Words").
pub const WIDTH: usize = 4;

pub type Combination = [u32; WIDTH];

// Fields of a row: an event and a parameter each ("The declarations", "Log rows and the run").
pub const MOST_FIELDS: usize = WIDTH + 1;

// Numbers in a row of the seen table, of the kept table, and of the reports ("One event").
pub const SEEN_STRIDE: usize = WIDTH;

pub const KEPT_STRIDE: usize = WIDTH + 1;

pub const REPORT_STRIDE: usize = WIDTH + 1;

// Events ("The declarations"), and of each the set of its parameters.
pub const MOST_EVENTS: usize = 16;

pub type EventSets = [u8; MOST_EVENTS];

// Numbers of a position set: 0, and one for each event name in a pattern ("The table").
pub const NUMBERS: usize = 32;

// States ("The table"); the state that event e leads to from state s, at s * MOST_EVENTS + e; and the verdict of each state.
pub const MOST_STATES: usize = 64;

pub const TRANSITIONS: usize = MOST_STATES * MOST_EVENTS;

pub type Transitions = [u8; TRANSITIONS];

pub type Verdicts = [u8; MOST_STATES];
