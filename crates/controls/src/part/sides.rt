ghost use Rattle.std.specs.Prelude.{◌≡◌, ◌≤◌, length};
ghost use Rattle.grammar.specs.Marks.{up_to, unpaired as unpaired_in};
ghost use Rattle.grammar.specs.Results.{located};
ghost use Rattle.controls.specs.Parts.{IsFront, IsBehind, IsSplit, Cuts};

use super::Part;
use crate::marks::{end_of, first_mark, unpaired};
use refusal::{FormatterError, ParseError};

impl<'a> Part<'a> {
    // What is wrong with the whole part.
    pub(crate) fn fault(self, kind: FormatterError) -> ParseError<FormatterError>
        ensures { result ≡ located kind self.entry.place (length self.entry.text.now) }
    {
        ParseError::new(kind, self.place, self.text.len())
    }

    // The first `size` bytes.
    fn front(self, size: usize) -> Part<'a>
        requires { size ≤ length self.text.now }
        ensures { IsFront self.entry size result }
    {
        Part {
            text: &self.text[..size],
            place: self.place,
        }
    }

    // What stands behind the first `size` bytes.
    pub(crate) fn behind(self, size: usize) -> Part<'a>
        requires { size ≤ length self.text.now }
        ensures { IsBehind self.entry size result }
    {
        Part {
            text: &self.text[size..],
            place: self.place + size,
        }
    }

    // What stands in front of the byte at `at`, and what behind it; the whole part, if it ends there.
    fn split_at(self, at: usize) -> (Part<'a>, Option<Part<'a>>)
        requires { at ≤ length self.text.now }
        ensures { IsSplit self.entry at result }
    {
        if at == self.text.len() {
            return (self, None);
        }
        (self.front(at), Some(self.behind(at + 1)))
    }

    // What stands in front of the first `mark`, and what behind it, if there is one.
    pub(crate) fn split(self, mark: u8) -> (Part<'a>, Option<Part<'a>>)
        ensures { IsSplit self.entry (up_to mark self.entry.text.now) result }
    {
        self.split_at(end_of(self.text, mark))
    }

    // The same at the first `mark` without a partner, pairs being passed over from the left.
    pub(crate) fn split_unpaired(self, mark: u8) -> (Part<'a>, Option<Part<'a>>)
        ensures { IsSplit self.entry (unpaired_in mark self.entry.text.now) result }
    {
        self.split_at(unpaired(self.text, mark))
    }

    // What stands in front of the first `one` with `two` right behind it, and what behind both.
    pub(crate) fn cut(self, one: u8, two: u8) -> Option<(Part<'a>, Part<'a>)>
        ensures { Cuts self.entry one two result }
    {
        let at = first_mark(self.text, one, two)?;
        Some((self.front(at), self.behind(at + 2)))
    }
}
