ghost use Rattle.std.specs.Prelude.{◌≡◌, ℕ, ◌+◌, ◌<◌, ◌≤◌, List, length, None, IfSome, MatchOption, take, slice_index, slice_set};
ghost use Rattle.plain.specs.Reading.{reads, ahead, short_items};

use crate::reader::Reader;
use crate::reading::{atom, times};
use crate::text::LONGEST_TEXT;
use matching::Item;

// How deep groups may be.
const DEEPEST: usize = 16;

impl<'a> Reader<'a> {
    // Adds an item, behind which `rest` is left.
    fn add(&mut self, item: Item, rest: &'a [u8])
        requires { length rest.now < length self.old.rest.now }
        ensures items { self.new.items ≡ slice_set self.old.items self.old.len item }
        ensures len { self.new.len ≡ self.old.len + 1 }
        ensures rest { self.new.rest.now ≡ rest.now }
        ensures groups { self.new.groups ≡ self.old.groups }
    {
        self.items[self.len] = item;
        self.len += 1;
        self.rest = rest;
    }

    // Reads up to the end of the group or of the text; groups inside may be `left` deep.
    fn inside(&mut self, left: usize) -> Option<()>
        requires { left ≤ 16 }
        ensures shorter { length self.new.rest.now ≤ length self.old.rest.now }
        ensures stops { IfSome result (λ _. 0 < length self.new.rest.now → slice_index self.new.rest.now 0 ≡ 41) }
        ensures reads { (ks : List ℕ) → length ks + left ≡ 16 → MatchOption result (ahead ks self.old ≡ None) (λ _. ahead ks self.old ≡ ahead ks self.new) }
    {
        while let [first, after @ ..] = self.rest {
            match *first {
                b')' => return Some(()),
                b'(' => {
                    let left = left.checked_sub(1)?;
                    let number = self.groups;
                    self.add(Item::Open(number), after);
                    self.groups += 1;
                    self.inside(left)?;
                    let [_, behind @ ..] = self.rest else {
                        return None;
                    };
                    self.add(Item::Close(number), behind);
                }
                _ => {
                    let (set, further) = atom(self.rest)?;
                    let (often, used) = times(&after[further..]);
                    self.add(Item::Take(set, often), &after[further + used..]);
                }
            }
        }
        Some(())
    }

    // The items that are read.
    pub(crate) fn items(&self) -> &[Item]
        ensures { result.now ≡ take self.now.len self.now.items }
    {
        &self.items[..self.len]
    }
}

// Reads a pattern: its items and its group count.
pub(crate) fn read(text: &[u8]) -> Option<Reader<'_>>
    ensures { reads result ≡ short_items text.now }
{
    if text.len() > LONGEST_TEXT {
        return None;
    }
    let mut reader = Reader {
        rest: text,
        groups: 1,
        items: [Item::Open(0); LONGEST_TEXT],
        len: 0,
    };
    reader.inside(DEEPEST)?;
    reader.rest.is_empty().then_some(reader)
}
