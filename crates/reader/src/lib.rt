// A reader over a log held in memory hands out its rows one after another (document 01, "Log rows and the run").
// The row splitter is the crate `rows`; `place_at` and `part` do all the work, on a plain slice and numbers, and `reader_at` and
// `hand_out` do nothing but take the struct apart. The face: `reader_at`, `hand_out`.
//
//     let mut r = reader_at(b"a,1\r\nb,2", 0);
//     hand_out(&mut r) is the row `a,1`, then `b,2`, then none; as an iterator, `r` yields these rows.

#![tactic(auto)]

ghost use Rattle.std.specs.Prelude.{◌≡◌, ◌-◌, take, drop};
ghost use Rattle.fields.specs.Places.{PartAt, Lies, place_from};
ghost use Rattle.reader.specs.Handing.{place_at, HandsOut, rows_left};
ghost use Rattle.std.specs.Iterator.{YieldsFirstRef, item_count};

// The log, and where its next row begins. Past the log's end there is none.
#[derive(Drop)]
pub struct Reader<'a> {
    pub log: &'a [u8],
    pub at: usize,
}

// A row that is handed out, as that part of the log, its line end left out; where there is none, the empty part at the
// log's start.
// Stays: as a flag beside the part, since where there is no row the part is promised too; `next` answers an `Option`.
#[derive(Drop)]
pub struct Row<'a> {
    pub bytes: &'a [u8],
    pub there: bool,
}

// Whether a row begins at a place of a log, where it ends, and where the one after it begins.
// Stays: a struct of C, so a flag with its places beside it.
#[repr(C)]
#[derive(Clone, Copy)]
pub struct Place {
    pub there: bool,
    pub end: usize,
    pub next: usize,
}

// The row at a place. The row at its end is empty, so the log is gone through once.
pub fn place_at(log: &[u8], at: usize) -> Place
    ensures { result ≡ place_at log.now at }
{
    if log.len() <= at {
        return Place {
            there: false,
            end: at,
            next: at,
        };
    }
    let end = rows::row_end(log, at);
    let next = rows::next_row(log, end);
    Place {
        there: true,
        end,
        next,
    }
}

// The part of a log from one place up to another, as far as the log goes.
pub fn part(log: &[u8], start: usize, end: usize) -> &[u8]
    ensures { PartAt log.entry (place_from start (take (end - start) (drop start log.now))) (take (end - start) (drop start log.now)) result }
{
    if end <= start || log.len() <= start {
        return &log[..0];
    }
    &log[start..end.min(log.len())]
}

// A reader whose first row begins at an offset of the log, any offset.
pub fn reader_at(log: &[u8], at: usize) -> Reader<'_>
    ensures { (result.log ≡ log.entry) × (result.at ≡ at) }
{
    Reader { log, at }
}

// Hands out the next row and moves on to the one after it; or says that there is none and stays.
pub fn hand_out<'a>(r: &mut Reader<'a>) -> Row<'a>
    ensures { (r.new.log ≡ r.old.log) × HandsOut r.old.log.now r.old.at result.there result.bytes.now r.new.at × Lies r.old.log (place_from r.old.at result.bytes.now) result.bytes }
{
    let place = place_at(r.log, r.at);
    let bytes = part(r.log, r.at, place.end);
    r.at = place.next;
    Row {
        bytes,
        there: place.there,
    }
}

// As an iterator, it yields the log's rows from its place on.
impl<'a> Iterator for Reader<'a> {
    type Item = &'a [u8];

    ghost next_gives = { YieldsFirstRef rows_left };

    ghost remaining = { item_count rows_left };

    fn next(&mut self) -> Option<&'a [u8]> {
        let row = hand_out(self);
        if row.there { Some(row.bytes) } else { None }
    }
}
