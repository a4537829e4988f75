// The first line that the watch program prints (document 01, "The program and its example"). The caller sees to the room, by
// lending `MOST_HEADING` bytes.

#![tactic(auto)]

ghost use Rattle.std.specs.Prelude.{◌≡◌, ◌+◌, ◌≤◌, length};
ghost use Rattle.document.specs.Refusals.{refusal_of};
ghost use Rattle.document.specs.Declarations.{declarations};
ghost use Rattle.decimals.specs.Written.{Written};
ghost use Rattle.lineparts.specs.Lines.{names_of, heading_of, most_names, most_heading};

use limits::WIDTH;

// Bytes of `event`, with which a header begins.
const EVENT_BYTES: usize = 5;

// Bytes that a parameter name can have at most, with its comma.
const MOST_NAME: usize = 33;

// Bytes of `row,verdict`.
const HEADING_WORDS: usize = 11;

// Bytes that the heading can have at most: what a caller must have room for.
pub const MOST_HEADING: usize = HEADING_WORDS + WIDTH * MOST_NAME + lineparts::LINE_END;

// Writes the parameter names, each with its comma: the bytes of the declarations' first row past `event`.
fn put_names(text: &mut [u8], at: usize, events: &[u8]) -> usize
    requires { (refusal_of (declarations events.now) ≡ 0) × (at + most_names ≤ length text.old) }
    ensures { Written at most_names (names_of (declarations events.now)) text.old text.new result }
{
    let end = rows::row_end(events, 0);
    decimals::put_bytes(text, at, &events[EVENT_BYTES..end])
}

// Writes the heading, `row,verdict` and the parameter names of declarations that are taken.
pub fn put_heading(text: &mut [u8], at: usize, events: &[u8]) -> usize
    requires { (refusal_of (declarations events.now) ≡ 0) × (at + most_heading ≤ length text.old) }
    ensures { Written at most_heading (heading_of (declarations events.now)) text.old text.new result }
{
    let names_at = decimals::put_bytes(text, at, b"row,verdict");
    let end_at = put_names(text, names_at, events);
    lineparts::put_line_end(text, end_at)
}
