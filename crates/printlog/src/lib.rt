// A log of any length, printed (document 01, "The program and its example"): window by window of the log's buffer, each by
// `printing::print`, to standard output. For the watch program alone. Above `window`, `printing` and `output`.

#![tactic(auto)]

ghost use Rattle.std.specs.Prelude.{◌≤◌, ◌≡◌, length, IfOk};

use output::Stopped;
use property::Property;
use std::io::Read;
use window::Window;

// What a log is printed by, and how far it is: the number of the next row, and the rows of both tables that count.
#[derive(Drop)]
pub struct Printer<'a, 'b, P> {
    rt: &'a P,
    declarations: &'a [u8],
    property: Property,
    seen: &'b mut [u32],
    kept: &'b mut [u32],
    reports: &'b mut [u32],
    text: &'b mut [u8],
    number: usize,
    seen_rows: usize,
    kept_rows: usize,
}

impl<'a, 'b, P: Print + Eprint> Printer<'a, 'b, P> {
    // Starts the session. Start is not refused: the table was translated, and there is room for the first kept row.
    pub fn new(
        rt: &'a P,
        declarations: &'a [u8],
        property: Property,
        seen: &'b mut [u32],
        kept: &'b mut [u32],
        reports: &'b mut [u32],
        text: &'b mut [u8],
    ) -> Printer<'a, 'b, P> {
        let started = starting::start(property, seen, kept);
        Printer {
            rt,
            declarations,
            property,
            seen,
            kept,
            reports,
            text,
            number: 1,
            seen_rows: started.seen,
            kept_rows: started.kept,
        }
    }

    // Rows that are held whole, each with its line end, but for the last of a log.
    fn print_rows(&mut self, part: &[u8]) -> Result<(), Stopped> {
        let mut at: usize = 0;
        // Stays: each call of `print` says where the next begins.
        while at < part.len() {
            let d = printing::print(
                self.declarations,
                self.property,
                self.seen,
                self.seen_rows,
                self.kept,
                self.kept_rows,
                self.reports,
                part,
                at,
                self.number,
                self.text,
            );
            if d.next <= at {
                return Err(Stopped);
            }
            output::write_out(self.rt, self.text, d.filled)?;
            self.number = d.number;
            self.seen_rows = d.seen;
            self.kept_rows = d.kept;
            at = d.next;
        }
        Ok(())
    }

    // What a window holds: its whole rows, before the rest of it; then a row that is too long, wherever it ends.
    fn print_window(&mut self, log: &[u8], w: Window, rest: Window) -> Result<(), Stopped>
        requires { (w.at ≤ rest.at) × (rest.held ≤ length log.now) }
    {
        self.print_rows(&log[w.at..rest.at])?;
        match rest.long_end() {
            Some(end) => self.print_rows(&log[rest.at..end]),
            None => Ok(()),
        }
    }

    // One turn over the log: what the window holds is printed, and the window is filled again.
    fn turn<R: Read>(
        &mut self,
        file: &mut Option<R>,
        log: &mut [u8],
        w: Window,
    ) -> Result<Window, Stopped>
        requires { w.held ≤ length log.old }
        ensures { IfOk result (λ next. next.held ≤ length log.old) }
    {
        let rest = w.after_rows(log);
        let printed = self.print_window(log, w, rest);
        let next = rest.after_long().refill(self.rt, file, log);
        printed?;
        Ok(next)
    }

    // The log, whose header is taken. A proved loop has to end, and nothing says that a file does. So the loop has a number of
    // turns that no run uses up.
    pub fn print_log<R: Read>(
        &mut self,
        file: &mut Option<R>,
        log: &mut [u8],
        first: Window,
    ) -> Result<(), Stopped>
        requires { first.held ≤ length log.old }
    {
        let mut w = first.after_row(log);
        for _ in 0..u64::MAX {
            if !w.goes_on() {
                break;
            }
            w = self.turn(file, log, w)?;
        }
        Ok(())
    }
}
