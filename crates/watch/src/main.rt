// The watch program (document 01, "The program and its example"): reads `events.csv`, `pattern.txt` and `log.csv` in the folder
// where it runs, and prints the reports of the log's rows. Thin over the library: `translate::translate`, `declared::header`,
// `starting::start` and `printing::print` do the work, the last two by way of `printlog`; here are the files and the buffers.

#![tactic(auto)]

ghost use Rattle.std.specs.Prelude.{◌≤◌, length};
ghost use Rattle.lineparts.specs.Lines.{most_refusal, most_heading};

use printlog::Printer;
use std::rt::Files;
use window::Window;

// A text of 4,096 bytes is taken. One byte more is enough to see that a text is longer, which the library then refuses.
const TEXT_ROOM: usize = 4097;

// The buffer that a log of any length is read through.
const LOG_ROOM: usize = 65536;

// The rooms: 1,024 seen, 3,000 kept, 3,000 reports. The first two are the largest that a session has.
const REPORTS: usize = 3000;

const REPORT_NUMBERS: usize = REPORTS * limits::REPORT_STRIDE;

// The lines of the fullest row, and as much again, so that many rows are printed in one piece.
const LINES_ROOM: usize = 2 * REPORTS * lines::MOST_LINE;

// The output for both texts and the log: the one line of a refusal, or the heading and the log's lines.
fn watch(
    rt: &(impl Files + Print + Eprint),
    declarations: &[u8],
    pattern: &[u8],
    seen: &mut [u32],
    kept: &mut [u32],
    reports: &mut [u32],
    log: &mut [u8],
    text: &mut [u8],
)
    requires { (most_refusal ≤ length text.old) × (most_heading ≤ length text.old) }
{
    let t = translate::translate(declarations, pattern);
    if t.refusal != refusals::TAKEN {
        output::print_refusal(rt, text, t.refusal);
        return;
    }
    let mut file = files::open(rt, "log.csv");
    let first = Window::first(rt, &mut file, log);
    let refusal = window::judge_header(declarations, &log[..first.held], first.has_failed());
    if refusal != refusals::TAKEN {
        output::print_refusal(rt, text, refusal);
        return;
    }
    if output::print_heading(rt, text, declarations).is_ok() {
        let mut printer = Printer::new(rt, declarations, t.property, seen, kept, reports, text);
        let _ = printer.print_log(&mut file, log, first);
    }
}

fn main(rt: HostRuntime) {
    let mut declarations = [0u8; TEXT_ROOM];
    let declared_to = files::read_whole(&rt, "events.csv", &mut declarations);
    let mut pattern = [0u8; TEXT_ROOM];
    let pattern_to = files::read_whole(&rt, "pattern.txt", &mut pattern);
    let mut seen = [0u32; rooms::SEEN_NUMBERS];
    let mut kept = [0u32; rooms::KEPT_NUMBERS];
    let mut reports = [0u32; REPORT_NUMBERS];
    let mut log = [0u8; LOG_ROOM];
    let mut text = [0u8; LINES_ROOM];
    watch(
        &rt,
        &declarations[..declared_to],
        &pattern[..pattern_to],
        &mut seen,
        &mut kept,
        &mut reports,
        &mut log,
        &mut text,
    );
}
