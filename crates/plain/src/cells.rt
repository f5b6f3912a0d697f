ghost use Rattle.std.specs.Prelude.{◌≡◌, ℕ, ◌+◌, ◌<◌, ◌≤◌, ◌≢◌, [], length, IfSome, slice_index_or};
ghost use Rattle.matching.specs.Items.{has};
ghost use Rattle.matching.specs.Cells.{cell_of, RowOf, Row, stay, onward, first_or, rests, goes};

use crate::search::{Cells, PLACES, Search};
use matching::{Item, Set, Times};

fn holds(set: Set, byte: u8) -> bool
    ensures { result ≡ has set byte }
{
    match set {
        Set::Dot => byte != b'\n',
        Set::Byte(b) => byte == b,
    }
}

// No byte is taken, where the later items can take what is left.
fn none(later: Option<u8>) -> Option<u8>
    ensures { result ≡ stay later }
{
    later.and(Some(0))
}

// A byte more is taken.
fn more(cell: Option<u8>) -> Option<u8>
    requires { IfSome cell (λ n. n < 255) }
    ensures { result ≡ onward cell }
{
    Some(cell? + 1)
}

fn resting(times: Times, later: Option<u8>) -> Option<u8>
    ensures { result ≡ rests times later }
{
    match times {
        Times::Once | Times::Several => None,
        Times::Maybe | Times::Many => none(later),
    }
}

fn taking(times: Times, later: Option<u8>, after: Option<u8>, again: Option<u8>) -> Option<u8>
    requires { IfSome again (λ n. n < 255) }
    ensures { result ≡ goes times later after again }
{
    match times {
        Times::Once => more(none(after)),
        Times::Maybe => more(none(after)).or(none(later)),
        Times::Several => more(again.or(none(after))),
        Times::Many => more(again).or(none(later)),
    }
}

// A cell, from those of the later items here and a byte on, and from the item's own a byte on.
fn cell_of(
    item: Item,
    byte: Option<u8>,
    later: Option<u8>,
    after: Option<u8>,
    again: Option<u8>,
) -> Option<u8>
    requires { IfSome again (λ n. n < 255) }
    ensures { result ≡ cell_of item byte later after again }
{
    match (item, byte) {
        (Item::Take(set, times), Some(b)) if holds(set, b) => taking(times, later, after, again),
        (Item::Take(_, times), _) => resting(times, later),
        (Item::Open(_) | Item::Close(_), _) => none(later),
    }
}

impl Search<'_> {
    // Fills the row of item `i` from that of the next, from the end of the name back.
    fn fill_row(&self, i: usize, table: &mut [Cells])
        requires within { i < length self.now.items.now }
        requires each { length self.now.items.now < length table.old }
        requires later { Row self.now.items.now self.now.name.now table.old (i + 1) }
        ensures row { Row self.now.items.now self.now.name.now table.new i }
        ensures others { (j : ℕ) → (j ≢ i) → slice_index_or table.new j [] ≡ slice_index_or table.old j [] }
    {
        let mut after = None;
        let mut again = None;
        // by place, since a cell stands beside a byte of the name and beside cells of two rows
        for at in (0..self.name.len() + 1).rev() {
            let byte = self.name.get(at).copied();
            let later = table[i + 1][at];
            again = cell_of(self.items[i], byte, later, after, again);
            after = later;
            table[i][at] = again;
        }
    }

    // The row behind the last item: nothing is left to take just at the end of the name.
    fn last_row(&self) -> Cells
        ensures { RowOf self.now.items.now self.now.name.now (length self.now.items.now) result }
    {
        let mut row = [None; PLACES];
        row[self.name.len()] = Some(0);
        row
    }

    // Fills the table, row by row from the last, which stands behind the items: each cell from three others.
    pub(crate) fn fill(&self, table: &mut [Cells])
        requires { length self.now.items.now < length table.old }
        ensures { (i : ℕ) → i ≤ length self.now.items.now → Row self.now.items.now self.now.name.now table.new i }
    {
        let count = self.items.len();
        table[count] = self.last_row();
        // by number, since each row is filled from the one behind it
        for i in (0..count).rev() {
            self.fill_row(i, table);
        }
    }
}
