// The log as it is read: one buffer, of which a part is held and not yet printed. How a log may be cut into such parts is proved
// in crates/rows/specs/BuffersOfRows.antt and crates/runs/specs/PrintBuffers.antt; the names of their laws stand beside the code.

#![tactic(auto)]

ghost use Rattle.std.specs.Prelude.{◌≤◌, length, ◌≡◌, IfSome};

use files::Stop;
use refusals::Refusal;
use std::io::Read;

// Bytes of a row that is longer than a row may be (128), whatever they are.
const LONG_ROW: usize = 129;

const LINE_END: &[u8] = b"\r\n";

// What comes after the bytes that are held.
#[derive(Clone, Copy, PartialEq, Eq)]
pub enum Next {
    // More of the log.
    More,

    // More of a row that is printed already, as too long.
    RestOfRow,

    // Nothing: the log has ended.
    End,

    // Nothing: a read has failed.
    Failure,
}

// The bytes from `at` on, up to `held`, are not printed yet.
#[derive(Clone, Copy)]
pub struct Window {
    pub at: usize,
    pub held: usize,
    pub next: Next,
    ghost ordered: { at ≤ held },
}

impl Window {
    // The log's first bytes; a log that is not there has none.
    pub fn first<R: Read>(rt: &impl Eprint, file: &mut Option<R>, log: &mut [u8]) -> Window
        ensures { result.held ≤ length log.old }
    {
        Window::read_on(rt, file, log, 0)
    }

    // Reads on after the bytes at the front, until the buffer is full or the log ends; a log that is not there has no more.
    fn read_on<R: Read>(
        rt: &impl Eprint,
        file: &mut Option<R>,
        log: &mut [u8],
        front: usize,
    ) -> Window
        requires { front ≤ length log.old }
        ensures { result.held ≤ length log.old }
    {
        let Some(file) = file else {
            return Window {
                at: 0,
                held: front,
                next: Next::End,
            };
        };
        let filled = files::fill(file, log, front);
        let next = match filled.stop {
            Stop::Full => Next::More,
            Stop::Ended => Next::End,
            Stop::Failed(error) => {
                files::say(rt, "log.csv", error);
                Next::Failure
            }
        };
        Window {
            at: 0,
            held: filled.held,
            next,
        }
    }

    // Whether nothing comes after the bytes that are held.
    fn is_last(self) -> bool {
        self.next == Next::End || self.next == Next::Failure
    }

    // Whether something is left of the log.
    pub fn goes_on(self) -> bool {
        self.at < self.held || !self.is_last()
    }

    // The same window from a later place on.
    fn from(self, at: usize) -> Window
        requires { at ≤ self.held }
        ensures { (result.at ≡ at) × (result.held ≡ self.held) }
    {
        Window {
            at,
            held: self.held,
            next: self.next,
        }
    }

    // A row that is printed as too long goes on: all but the last byte, which may be the CR of its line end, is let go
    // (`open_after`). At the end of the log it goes on no further.
    fn inside_row(self) -> Window
        ensures { result.held ≡ self.held }
    {
        if self.is_last() || self.held == 0 {
            return self.from(self.held);
        }
        Window {
            at: self.held - 1,
            held: self.held,
            next: Next::RestOfRow,
        }
    }

    // Where the rows end that are held whole: at the end of the log (`print_end`), or at the last line end (`closed-rows`); where
    // there is none, at the window's start, and so inside a row that is printed already.
    fn rows_end(self, log: &[u8]) -> usize
        requires { self.held ≤ length log.now }
        ensures { (self.at ≤ result) × (result ≤ self.held) }
    {
        match self.next {
            Next::End => self.held,
            Next::RestOfRow => self.at,
            Next::More | Next::Failure => self.last_line_end(log),
        }
    }

    // Where the last line end that is held ends; where there is none, the window's start.
    fn last_line_end(self, log: &[u8]) -> usize
        requires { self.held ≤ length log.now }
        ensures { (self.at ≤ result) × (result ≤ self.held) }
    {
        let mut pairs = log[self.at..self.held].windows(LINE_END.len());
        match pairs.rposition(|pair| pair == LINE_END) {
            Some(i) => self.at + i + LINE_END.len(),
            None => self.at,
        }
    }

    // The window after the rows that are held whole.
    pub fn after_rows(self, log: &[u8]) -> Window
        requires { self.held ≤ length log.now }
        ensures { (self.at ≤ result.at) × (result.held ≡ self.held) }
    {
        self.from(self.rows_end(log))
    }

    // A window that holds no line end may begin with a row that is too long, wherever it ends (`print_long`): without the last
    // byte, which may be a CR, more bytes are held than a row may have. Where so many of them end, where it is so.
    pub fn long_end(self) -> Option<usize>
        ensures { IfSome result (λ end. (self.at ≤ end) × (end ≤ self.held)) }
    {
        if self.next == Next::More && LONG_ROW < self.held - self.at {
            Some(self.at + LONG_ROW)
        } else {
            None
        }
    }

    // The window after such a row.
    pub fn after_long(self) -> Window
        ensures { result.held ≡ self.held }
    {
        match self.long_end() {
            Some(_) => self.inside_row(),
            None => self,
        }
    }

    // The window after the line end of its first row, which is printed or judged; where that is not held, the row goes on.
    pub fn after_row(self, log: &[u8]) -> Window
        requires { self.held ≤ length log.now }
        ensures { result.held ≡ self.held }
    {
        let held = &log[..self.held];
        let end = rows::row_end(held, self.at);
        if end < held.len() {
            self.from(end + LINE_END.len())
        } else {
            self.inside_row()
        }
    }

    // What comes after a window of which all before `at` is printed; nothing where no more will come.
    pub fn refill<R: Read>(self, rt: &impl Eprint, file: &mut Option<R>, log: &mut [u8]) -> Window
        requires { self.held ≤ length log.old }
        ensures { result.held ≤ length log.old }
    {
        if self.is_last() {
            return self.from(self.held);
        }
        log.copy_within(self.at..self.held, 0);
        let more = Window::read_on(rt, file, log, self.held - self.at);
        if self.next == Next::RestOfRow {
            more.after_row(log)
        } else {
            more
        }
    }

    // Whether no more will come because a read has failed.
    pub fn has_failed(self) -> bool {
        self.next == Next::Failure
    }
}

// The refusal of the log's header, its first row, or 0, by the bytes that are held of the log. Where no line end is held of it, it is
// longer than any header or the log's only row; where a read failed, it is not known, and the log counts as missing.
// Stays: a number, which `declared::header` answers to hosts in C, and which is printed.
pub fn judge_header(declarations: &[u8], held: &[u8], failed: bool) -> u8 {
    let end = rows::row_end(held, 0);
    if failed && held.len() <= end {
        Refusal::HeaderDiffers.number()
    } else {
        declared::header(declarations, &held[..end])
    }
}
