// Fields of a row (document 01, "The declarations", "Log rows and the run"): where they stand, and whether two parts hold the
// same bytes. `rowfields` counts a log row's commas in its pass for barred bytes. The face: `field`.
//
//     field(b"feed,1,7", 2) is the part `7` of the row; field(b"feed,1,7", 3) is the empty part at its start.

#![tactic(auto)]

ghost use Rattle.std.specs.Prelude.{◌≡◌, ◌+◌, ◌≤◌, ◌<◌, length, take, drop};
ghost use Rattle.document.specs.Lists.{equal};
ghost use Rattle.document.specs.Rows.{field};
ghost use Rattle.fields.specs.Split.{up_to_comma, most_fields, Split, added};
ghost use Rattle.fields.specs.Places.{PartAt, ToldAt, field_part};

use limits::MOST_FIELDS;

const COMMA: u8 = 44;

// Whether two parts hold the same bytes.
#[tactic(auto, using(crate::specs::SameLaws::equal_is))]
pub fn same(a: &[u8], b: &[u8]) -> bool
    ensures { result ≡ equal a.now b.now }
{
    a == b
}

// Where the field that begins at a place ends: its comma, or the row's end.
pub fn field_end(row: &[u8], start: usize) -> usize
    ensures { result ≡ start + up_to_comma (drop start row.now) }
{
    for i in start..row.len() {
        if row[i] == COMMA {
            return i;
        }
    }
    start.max(row.len())
}

// A part of a text, told by numbers: where it starts and how long it is.
#[repr(C)]
#[derive(Clone, Copy)]
pub struct Part {
    pub start: usize,
    pub size: usize,
}

impl Part {
    // That part of the text.
    pub fn of(self, text: &[u8]) -> &[u8]
        requires { self.start + self.size ≤ length text.now }
        ensures { PartAt text.entry self.start (take self.size (drop self.start text.now)) result }
    {
        &text[self.start..self.start + self.size]
    }
}

// Where a field of a row lies; where there is none, the empty part at the start.
pub fn field_place(row: &[u8], number: usize) -> Part
    ensures { ToldAt row.now (field_part row.now number).start (field row.now number) result }
{
    let mut start = 0;
    let mut end = field_end(row, 0);
    for _passed in 0..number {
        if row.len() <= end {
            return Part { start: 0, size: 0 };
        }
        start = end + 1;
        end = field_end(row, start);
    }
    Part {
        start,
        size: end - start,
    }
}

// A field of a row, as that part of it; where there is none, the empty part at the start.
#[tactic(auto, using(crate::specs::PlacesLaws::told_part))]
pub fn field(row: &[u8], number: usize) -> &[u8]
    ensures { PartAt row.entry (field_part row.now number).start (field row.now number) result }
{
    field_place(row, number).of(row)
}

// The fields of a row: how many there are, counted no further than one past what a row can have, and where those that it
// can have lie.
#[derive(Clone, Copy)]
pub struct Fields {
    pub count: usize,
    pub places: [Part; MOST_FIELDS],
}

// The fields with one more.
fn with_field(f: Fields, place: Part) -> Fields
    ensures { result ≡ added f (record { start = place.start; size = place.size }) }
{
    let at = f.count;
    let mut g = f;
    if MOST_FIELDS <= at {
        g.count = MOST_FIELDS + 1;
        return g;
    }
    g.count = at + 1;
    g.places[at] = place;
    g
}

// A row with its fields.
#[derive(Clone, Copy)]
pub struct Row<'a> {
    pub bytes: &'a [u8],
    pub fields: Fields,
    ghost split: { Split bytes.now fields },
}

// A row with all of its fields, found in one pass.
pub fn split(bytes: &[u8]) -> Row<'_>
    ensures { result.bytes.now ≡ bytes.now }
{
    let none = Fields {
        count: 0,
        places: [Part { start: 0, size: 0 }; MOST_FIELDS],
    };
    let mut start = 0;
    let mut end = field_end(bytes, start);
    let mut fields = with_field(
        none,
        Part {
            start,
            size: end - start,
        },
    );
    // Stays: it goes from comma to comma, whose places no range says.
    while end < bytes.len() {
        start = end + 1;
        end = field_end(bytes, start);
        fields = with_field(
            fields,
            Part {
                start,
                size: end - start,
            },
        );
    }
    Row { bytes, fields }
}

impl Row<'_> {
    // A field, as that part of the row.
    pub fn field(&self, k: usize) -> &[u8]
        requires { (k < self.now.fields.count) × (self.now.fields.count ≤ most_fields) }
        ensures { result.now ≡ field self.now.bytes.now k }
    {
        self.fields.places[k].of(self.bytes)
    }
}
