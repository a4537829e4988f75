// The calls of the face for hosts in C and C++, which include/gorrindatz.h declares: each is one call of a crate below, under the
// same contract. A combination is lent, and a part of a text is told by its place. crates/gorrindatz_c exports them to C. No call
// has a `requires`; what the types say and a host owes (pointers that are valid, aligned and not null, what is written overlapping
// nothing) stands in the header.

#![tactic(auto)]

ghost use Rattle.std.specs.Prelude.{◌≡◌, length};
ghost use Rattle.document.specs.Refusals.{refusal_of};
ghost use Rattle.document.specs.Classes.{class_of};
ghost use Rattle.document.specs.Rows.{field};
ghost use Rattle.document.specs.Declarations.{declarations, header, event_name, name_at};
ghost use Rattle.document.specs.Translate.{translate};
ghost use Rattle.document.specs.Session.{event, start, lookup};
ghost use Rattle.document.specs.Log.{row, run};
ghost use Rattle.fields.specs.Places.{ToldAt, field_part, place_from};
ghost use Rattle.declared.specs.Answers.{declared_of, event_start};
ghost use Rattle.reader.specs.Handing.{place_at};
ghost use Rattle.translate.specs.Translations.{translated_of};
ghost use Rattle.property.specs.Meaning.{meaning};
ghost use Rattle.hopes.specs.Hoping.{Checks};
ghost use Rattle.judge.specs.Sound.{session_of};
ghost use Rattle.starting.specs.Starts.{StartLeaves};
ghost use Rattle.steps.specs.Steps.{Leaves};
ghost use Rattle.finding.specs.Finds.{looked_up};
ghost use Rattle.turns.specs.Turns.{RunLeaves};
ghost use Rattle.printing.specs.Printing.{print_call, prints_to};
ghost use Rattle.printing.specs.Prints.{PrintLeaves};

use declared::Declared;
use fields::Part;
use finding::Looked;
use hopes::Checked;
use limits::{Combination, MOST_EVENTS, MOST_STATES, TRANSITIONS, WIDTH};
use lines::MOST_LINE;
use printrow::Printed;
use property::Property;
use reader::Place;
use rooms::{KEPT_NUMBERS, SEEN_NUMBERS};
use steps::Answered;
use translate::Translated;
use turns::Ran;

// The sizes that the header asserts, its numbers on the left, and on the right what they are sums of here: where a limit moves and
// the header does not, this is no program. A struct is laid out as C lays it out: what is smaller than the word after it is padded.
const WORD: usize = 8;

const DECLARED: [u8; 40] = [0; WORD + 2 * WORD + MOST_EVENTS];

const PART: [u8; 16] = [0; 2 * WORD];

const PLACE: [u8; 24] = [0; WORD + 2 * WORD];

const PROPERTY: [u8; 1136] = [0; 3 * WORD + 1 + MOST_EVENTS + TRANSITIONS + MOST_STATES + 7];

const TRANSLATED: [u8; 1152] = [0; 2 * WORD + 1136];

const CHECKED: [u8; 16] = [0; WORD + WORD];

const ANSWERED: [u8; 32] = [0; WORD + 3 * WORD];

const LOOKED: [u8; 12] = [0; 4 + 4 + 4];

const RAN: [u8; 48] = [0; WORD + 5 * WORD];

const PRINTED: [u8; 48] = [0; WORD + 5 * WORD];

// and its limits
const COMBINATION: [u8; 4] = [0; WIDTH];

const SEEN_ROOM: [u8; 4096] = [0; SEEN_NUMBERS];

const KEPT_ROOM: [u8; 15000] = [0; KEPT_NUMBERS];

const LINE: [u8; 72] = [0; MOST_LINE];

// Texts -----------------------------------------------------------------------------------------------------------------

pub fn gorrindatz_class_of(byte: u8) -> u8
    ensures { result ≡ class_of byte }
{
    classes::class_of(byte).number()
}

pub fn gorrindatz_declarations(text: &[u8]) -> Declared
    ensures { result ≡ declared_of (declarations text.now) }
{
    declared::declarations(text)
}

pub fn gorrindatz_header(declarations: &[u8], row: &[u8]) -> u8
    ensures { result ≡ refusal_of (header declarations.now row.now) }
{
    declared::header(declarations, row)
}

pub fn gorrindatz_field(row: &[u8], number: usize) -> Part
    ensures { ToldAt row.now (field_part row.now number).start (field row.now number) result }
{
    fields::field_place(row, number)
}

pub fn gorrindatz_event_name(declarations: &[u8], event: usize) -> Part
    ensures { ToldAt declarations.now (event_start declarations.now event) (event_name declarations.now event) result }
{
    declared::event_place(declarations, event)
}

pub fn gorrindatz_pattern_name(pattern: &[u8], at: usize) -> Part
    ensures { ToldAt pattern.now (place_from at (name_at pattern.now at)) (name_at pattern.now at) result }
{
    declared::pattern_place(pattern, at)
}

pub fn gorrindatz_row_at(log: &[u8], at: usize) -> Place
    ensures { result ≡ place_at log.now at }
{
    reader::place_at(log, at)
}

// Properties ------------------------------------------------------------------------------------------------------------

pub fn gorrindatz_translate(declarations: &[u8], pattern: &[u8]) -> Translated
    ensures { result ≡ translated_of (translate declarations.now pattern.now) }
{
    translate::translate(declarations, pattern)
}

pub fn gorrindatz_check(p: Property) -> Checked
    ensures { Checks (meaning p) result }
{
    hopes::check(p)
}

// Sessions --------------------------------------------------------------------------------------------------------------

pub fn gorrindatz_start(p: Property, seen: &mut [u32], kept: &mut [u32]) -> Answered
    ensures { StartLeaves (start (meaning p) seen.old kept.old) seen.old kept.old result seen.new kept.new }
{
    starting::start(p, seen, kept)
}

pub fn gorrindatz_event(
    p: Property,
    seen: &mut [u32],
    n: usize,
    kept: &mut [u32],
    m: usize,
    reports: &mut [u32],
    e: usize,
    values: &Combination,
) -> Answered
    ensures { Leaves (event (meaning p) (session_of n m seen.old kept.old) reports.old e values.now) (session_of n m seen.old kept.old) reports.old result seen.new kept.new reports.new }
{
    session::event(p, seen, n, kept, m, reports, e, *values)
}

pub fn gorrindatz_lookup(
    p: Property,
    seen: &[u32],
    n: usize,
    kept: &[u32],
    m: usize,
    combination: &Combination,
) -> Looked
    ensures { result ≡ looked_up (lookup (meaning p) (session_of n m seen.now kept.now) combination.now) }
{
    finding::lookup(p, seen, n, kept, m, *combination)
}

// Logs ------------------------------------------------------------------------------------------------------------------

pub fn gorrindatz_row(
    declarations: &[u8],
    p: Property,
    seen: &mut [u32],
    n: usize,
    kept: &mut [u32],
    m: usize,
    reports: &mut [u32],
    bytes: &[u8],
) -> Answered
    ensures { Leaves (row declarations.now (meaning p) (session_of n m seen.old kept.old) reports.old bytes.now) (session_of n m seen.old kept.old) reports.old result seen.new kept.new reports.new }
{
    logs::row(declarations, p, seen, n, kept, m, reports, bytes)
}

pub fn gorrindatz_run(
    declarations: &[u8],
    p: Property,
    seen: &mut [u32],
    n: usize,
    kept: &mut [u32],
    m: usize,
    reports: &mut [u32],
    log: &[u8],
    at: usize,
    budget: usize,
) -> Ran
    ensures { RunLeaves (run declarations.now (meaning p) (session_of n m seen.old kept.old) reports.old log.now at budget) result seen.new kept.new reports.new }
{
    logs::run(declarations, p, seen, n, kept, m, reports, log, at, budget)
}

pub fn gorrindatz_print(
    declarations: &[u8],
    p: Property,
    seen: &mut [u32],
    n: usize,
    kept: &mut [u32],
    m: usize,
    reports: &mut [u32],
    log: &[u8],
    at: usize,
    number: usize,
    text: &mut [u8],
) -> Printed
    ensures { PrintLeaves (refusal_of (print_call declarations.now (meaning p) (session_of n m seen.old kept.old) reports.old log.now at number (length text.old))) (prints_to at number (session_of n m seen.old kept.old) reports.old (print_call declarations.now (meaning p) (session_of n m seen.old kept.old) reports.old log.now at number (length text.old))) text.old result seen.new kept.new reports.new text.new }
{
    printing::print(
        declarations,
        p,
        seen,
        n,
        kept,
        m,
        reports,
        log,
        at,
        number,
        text,
    )
}
