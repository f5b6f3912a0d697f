ghost use Rattle.std.specs.Prelude.{◌≡◌, ℕ, ◌<◌, ◌≤◌, true, length, is_some, if◌then◌else◌, None, Option, nat_le, slice_set};
ghost use Rattle.matching.specs.Best.{best, at_end};
ghost use Rattle.matching.specs.Items.{as_seq};
ghost use Rattle.matching.specs.Places.{ended, placed, match_in};
ghost use Rattle.matching.specs.Cells.{Row, marked, takes_of};

use crate::found::NUMBERS;
use crate::search::{Cells, PLACES, Search};
use crate::text::LONGEST_TEXT;
use engine::LONGEST_NAME;
use matching::Item;

// A row for each item, as many as a text can have bytes, and one behind.
const ROWS: usize = LONGEST_TEXT + 1;

fn ended_at(at: u8, place: Option<(u8, u8)>) -> Option<(u8, u8)>
    ensures { result ≡ ended at place }
{
    place.map(|(from, _)| (from, at))
}

// Notes a place by its number, where there is such a number. By index: with `get_mut` goals of the proof stayed open.
fn note(k: u8, place: Option<(u8, u8)>, places: &mut [Option<(u8, u8)>])
    ensures { places.new ≡ slice_set places.old k place }
{
    let k = usize::from(k);
    if k < places.len() {
        places[k] = place;
    }
}

// Notes the place of an item that opens or closes a group.
fn mark(item: Item, at: u8, places: &mut [Option<(u8, u8)>])
    ensures { places.new ≡ marked item at places.old }
{
    match item {
        Item::Open(k) => note(k, Some((at, at)), places),
        Item::Close(k) => {
            let opened = places.get(usize::from(k)).copied().flatten();
            note(k, ended_at(at, opened), places)
        }
        Item::Take(_, _) => {}
    }
}

impl Search<'_> {
    // Goes through a name that is matched: each item takes what the table says.
    fn follow(&self, table: &[Cells], places: &mut [Option<(u8, u8)>])
        requires each { length self.now.items.now < length table.now }
        requires matched { is_some (best (as_seq self.now.items.now) at_end self.now.name.now) ≡ true }
        requires rows { (i : ℕ) → i ≤ length self.now.items.now → Row self.now.items.now self.now.name.now table.now i }
        ensures { places.new ≡ placed (takes_of self.now.items.now self.now.name.now) (as_seq self.now.items.now) 0 places.old }
    {
        let mut at = 0;
        for (i, item) in self.items.iter().enumerate() {
            mark(*item, at, places);
            at += table[i][usize::from(at)].unwrap();
        }
    }
}

// The places of the match, where a name of at most 255 bytes has one.
pub(crate) fn find(items: &[Item], name: &[u8]) -> Option<[Option<(u8, u8)>; NUMBERS]>
    requires { length items.now ≤ 96 }
    ensures { result ≡ (if nat_le (length name.now) 255 then match_in 49 (as_seq items.now) name.now else None) }
{
    if name.len() > LONGEST_NAME {
        return None;
    }
    let search = Search { items, name };
    // of the largest size, since an engine takes no memory from the heap
    let mut table = [[None; PLACES]; ROWS];
    search.fill(&mut table);
    table[0][0]?;
    let mut places = [None; NUMBERS];
    // a name has at most 255 bytes here, so that `try_from` would have nothing to refuse
    places[0] = Some((0, name.len() as u8));
    search.follow(&table, &mut places);
    Some(places)
}
