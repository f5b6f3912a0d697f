ghost use Rattle.std.specs.Prelude.{◌≤◌, length};

use engine::LONGEST_NAME;
use matching::Item;

// The places of the longest name, that behind its last byte among them.
pub(crate) const PLACES: usize = LONGEST_NAME + 1;

// What an item takes from each place of a name, where the later items can take the rest.
pub(crate) type Cells = [Option<u8>; PLACES];

// A name that is to be shared out among items.
#[derive(Clone, Copy)]
pub(crate) struct Search<'a> {
    pub(crate) items: &'a [Item],
    pub(crate) name: &'a [u8],
    ghost short: { length name.now ≤ 255 },
}
