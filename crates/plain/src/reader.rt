ghost use Rattle.std.specs.Prelude.{◌≡◌, ◌+◌, ◌≤◌, length};

use crate::text::LONGEST_TEXT;
use matching::Item;

// A pattern as far as it is read: what is left of its text, the next group's number, and the items.
// The items stand in room for as many as the longest text has bytes, since an engine takes no memory from the heap.
#[derive(Clone, Copy)]
pub(crate) struct Reader<'a> {
    pub(crate) rest: &'a [u8],
    pub(crate) groups: u8,
    pub(crate) items: [Item; LONGEST_TEXT],
    pub(crate) len: usize,
    ghost full: { length items ≡ 96 },
    ghost room: { len + length rest.now ≤ 96 },
    ghost few: { groups + length rest.now ≤ 97 },
}
