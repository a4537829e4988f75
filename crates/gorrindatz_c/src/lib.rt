// What C links with: the calls of crates/gorrindatz, exported under their own names and contracts. To C a slice is a pointer and a
// length, in elements. tools/library writes target/staticlib/libgorrindatz.a.

#![tactic(auto)]

ghost use Rattle.std.specs.Prelude.{◌≡◌, length};
ghost use Rattle.document.specs.Refusals.{refusal_of};
ghost use Rattle.document.specs.Classes.{class_of};
ghost use Rattle.document.specs.Rows.{field};
ghost use Rattle.document.specs.Declarations.{declarations, header, event_name, name_at};
ghost use Rattle.document.specs.Translate.{translate};
ghost use Rattle.document.specs.Session.{event, start, lookup};
ghost use Rattle.document.specs.Log.{row, run};
ghost use Rattle.fields.specs.Places.{ToldAt, field_part, place_from};
ghost use Rattle.declared.specs.Answers.{declared_of, event_start};
ghost use Rattle.reader.specs.Handing.{place_at};
ghost use Rattle.translate.specs.Translations.{translated_of};
ghost use Rattle.property.specs.Meaning.{meaning};
ghost use Rattle.hopes.specs.Hoping.{Checks};
ghost use Rattle.judge.specs.Sound.{session_of};
ghost use Rattle.starting.specs.Starts.{StartLeaves};
ghost use Rattle.steps.specs.Steps.{Leaves};
ghost use Rattle.finding.specs.Finds.{looked_up};
ghost use Rattle.turns.specs.Turns.{RunLeaves};
ghost use Rattle.printing.specs.Printing.{print_call, prints_to};
ghost use Rattle.printing.specs.Prints.{PrintLeaves};

use declared::Declared;
use fields::Part;
use finding::Looked;
use hopes::Checked;
use limits::Combination;
use printrow::Printed;
use property::Property;
use reader::Place;
use steps::Answered;
use translate::Translated;
use turns::Ran;

// Texts -----------------------------------------------------------------------------------------------------------------

#[unsafe(no_mangle)]
pub extern "C" fn gorrindatz_class_of(byte: u8) -> u8
    ensures { result ≡ class_of byte }
{
    gorrindatz::gorrindatz_class_of(byte)
}

#[unsafe(no_mangle)]
pub extern "C" fn gorrindatz_declarations(text: &[u8]) -> Declared
    ensures { result ≡ declared_of (declarations text.now) }
{
    gorrindatz::gorrindatz_declarations(text)
}

#[unsafe(no_mangle)]
pub extern "C" fn gorrindatz_header(declarations: &[u8], row: &[u8]) -> u8
    ensures { result ≡ refusal_of (header declarations.now row.now) }
{
    gorrindatz::gorrindatz_header(declarations, row)
}

#[unsafe(no_mangle)]
pub extern "C" fn gorrindatz_field(row: &[u8], number: usize) -> Part
    ensures { ToldAt row.now (field_part row.now number).start (field row.now number) result }
{
    gorrindatz::gorrindatz_field(row, number)
}

#[unsafe(no_mangle)]
pub extern "C" fn gorrindatz_event_name(declarations: &[u8], event: usize) -> Part
    ensures { ToldAt declarations.now (event_start declarations.now event) (event_name declarations.now event) result }
{
    gorrindatz::gorrindatz_event_name(declarations, event)
}

#[unsafe(no_mangle)]
pub extern "C" fn gorrindatz_pattern_name(pattern: &[u8], at: usize) -> Part
    ensures { ToldAt pattern.now (place_from at (name_at pattern.now at)) (name_at pattern.now at) result }
{
    gorrindatz::gorrindatz_pattern_name(pattern, at)
}

#[unsafe(no_mangle)]
pub extern "C" fn gorrindatz_row_at(log: &[u8], at: usize) -> Place
    ensures { result ≡ place_at log.now at }
{
    gorrindatz::gorrindatz_row_at(log, at)
}

// Properties ------------------------------------------------------------------------------------------------------------

#[unsafe(no_mangle)]
pub extern "C" fn gorrindatz_translate(declarations: &[u8], pattern: &[u8]) -> Translated
    ensures { result ≡ translated_of (translate declarations.now pattern.now) }
{
    gorrindatz::gorrindatz_translate(declarations, pattern)
}

#[unsafe(no_mangle)]
pub extern "C" fn gorrindatz_check(p: Property) -> Checked
    ensures { Checks (meaning p) result }
{
    gorrindatz::gorrindatz_check(p)
}

// Sessions --------------------------------------------------------------------------------------------------------------

#[unsafe(no_mangle)]
pub extern "C" fn gorrindatz_start(p: Property, seen: &mut [u32], kept: &mut [u32]) -> Answered
    ensures { StartLeaves (start (meaning p) seen.old kept.old) seen.old kept.old result seen.new kept.new }
{
    gorrindatz::gorrindatz_start(p, seen, kept)
}

#[unsafe(no_mangle)]
pub extern "C" fn gorrindatz_event(
    p: Property,
    seen: &mut [u32],
    n: usize,
    kept: &mut [u32],
    m: usize,
    reports: &mut [u32],
    e: usize,
    values: &Combination,
) -> Answered
    ensures { Leaves (event (meaning p) (session_of n m seen.old kept.old) reports.old e values.now) (session_of n m seen.old kept.old) reports.old result seen.new kept.new reports.new }
{
    gorrindatz::gorrindatz_event(p, seen, n, kept, m, reports, e, values)
}

#[unsafe(no_mangle)]
pub extern "C" fn gorrindatz_lookup(
    p: Property,
    seen: &[u32],
    n: usize,
    kept: &[u32],
    m: usize,
    combination: &Combination,
) -> Looked
    ensures { result ≡ looked_up (lookup (meaning p) (session_of n m seen.now kept.now) combination.now) }
{
    gorrindatz::gorrindatz_lookup(p, seen, n, kept, m, combination)
}

// Logs ------------------------------------------------------------------------------------------------------------------

#[unsafe(no_mangle)]
pub extern "C" fn gorrindatz_row(
    declarations: &[u8],
    p: Property,
    seen: &mut [u32],
    n: usize,
    kept: &mut [u32],
    m: usize,
    reports: &mut [u32],
    bytes: &[u8],
) -> Answered
    ensures { Leaves (row declarations.now (meaning p) (session_of n m seen.old kept.old) reports.old bytes.now) (session_of n m seen.old kept.old) reports.old result seen.new kept.new reports.new }
{
    gorrindatz::gorrindatz_row(declarations, p, seen, n, kept, m, reports, bytes)
}

#[unsafe(no_mangle)]
pub extern "C" fn gorrindatz_run(
    declarations: &[u8],
    p: Property,
    seen: &mut [u32],
    n: usize,
    kept: &mut [u32],
    m: usize,
    reports: &mut [u32],
    log: &[u8],
    at: usize,
    budget: usize,
) -> Ran
    ensures { RunLeaves (run declarations.now (meaning p) (session_of n m seen.old kept.old) reports.old log.now at budget) result seen.new kept.new reports.new }
{
    gorrindatz::gorrindatz_run(declarations, p, seen, n, kept, m, reports, log, at, budget)
}

#[unsafe(no_mangle)]
pub extern "C" fn gorrindatz_print(
    declarations: &[u8],
    p: Property,
    seen: &mut [u32],
    n: usize,
    kept: &mut [u32],
    m: usize,
    reports: &mut [u32],
    log: &[u8],
    at: usize,
    number: usize,
    text: &mut [u8],
) -> Printed
    ensures { PrintLeaves (refusal_of (print_call declarations.now (meaning p) (session_of n m seen.old kept.old) reports.old log.now at number (length text.old))) (prints_to at number (session_of n m seen.old kept.old) reports.old (print_call declarations.now (meaning p) (session_of n m seen.old kept.old) reports.old log.now at number (length text.old))) text.old result seen.new kept.new reports.new text.new }
{
    gorrindatz::gorrindatz_print(
        declarations,
        p,
        seen,
        n,
        kept,
        m,
        reports,
        log,
        at,
        number,
        text,
    )
}
