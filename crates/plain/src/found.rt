ghost use Rattle.std.specs.Prelude.{◌≡◌, ◌≤◌, length};

use crate::text::LONGEST_TEXT;

// The whole name, and the most groups that a text can have.
pub(crate) const NUMBERS: usize = 1 + LONGEST_TEXT / 2;

// A match: the places of its groups by number, in room for as many as a text can have, since an engine takes no memory from
// the heap.
#[derive(Clone, Copy)]
pub struct PlainMatch {
    pub(crate) places: [Option<(u8, u8)>; NUMBERS],
    pub(crate) count: usize,
    ghost full: { length places ≡ 49 },
    ghost few: { count ≤ 49 },
}
