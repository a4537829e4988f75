// The rooms of lent tables (document 01, "One event").

#![tactic(auto, unfolding(document::specs::Tables::seen_room, document::specs::Tables::kept_room))]

ghost use Rattle.std.specs.Prelude.{◌≡◌, ◌*◌, ◌/◌, ◌<◌, ◌≤◌, min, length};
ghost use Rattle.document.specs.Limits.{seen_stride, kept_stride};
ghost use Rattle.document.specs.Tables.{seen_room, kept_room};

use limits::{KEPT_STRIDE, SEEN_STRIDE};

// "at most 1,024 rows", "at most 3,000 rows" ("One event").
pub const MOST_SEEN: usize = 1024;

pub const MOST_KEPT: usize = 3000;

// Numbers that the largest rooms of the seen and the kept table take: those past them are never read or written.
pub const SEEN_NUMBERS: usize = MOST_SEEN * SEEN_STRIDE;

pub const KEPT_NUMBERS: usize = MOST_KEPT * KEPT_STRIDE;

// "Room is the smaller of that limit and the whole rows lent".
fn room(t: &[u32], stride: usize, most: usize) -> usize
    requires { 0 < stride }
    ensures { (result ≡ min most (length t.now / stride)) × (result * stride ≤ length t.now) }
{
    most.min(t.len() / stride)
}

pub fn seen_room(t: &[u32]) -> usize
    ensures { (result ≡ seen_room t.now) × (result * seen_stride ≤ length t.now) }
{
    room(t, SEEN_STRIDE, MOST_SEEN)
}

pub fn kept_room(t: &[u32]) -> usize
    ensures { (result ≡ kept_room t.now) × (result * kept_stride ≤ length t.now) }
{
    room(t, KEPT_STRIDE, MOST_KEPT)
}
