ghost use Rattle.std.specs.Prelude.{◌≡◌, ℕ, ◌<◌, map, length, Some, None, MatchOption, MatchResult};
ghost use Rattle.engine.specs.Holdings.{one};
ghost use Rattle.engine.specs.declared.error.PatternError.TheVariants.{NothingHeld};
ghost use Rattle.listed.specs.Facts.{rule_of};
ghost use Rattle.listed.specs.Seen.{fact, held_in};
ghost use Rattle.listed.specs.Laws.{list_view};

use crate::answers::{AnswerMatch, count_of, find, match_of};
use crate::rows::{AnswerList, AnswerRow, HOLDINGS};
use engine::{Leave, PatternEngine, PatternError};

impl<'a> AnswerList<'a> {
    // An engine that answers from the rows, and holds nothing.
    pub fn over(rows: &'a [AnswerRow<'a>]) -> AnswerList<'a>
        ensures rule { (list_view result).rule ≡ rule_of (map fact rows.now) }
        ensures free { (k : ℕ) → (list_view result).held k ≡ None }
    {
        AnswerList {
            rows,
            slots: [None; HOLDINGS],
        }
    }
}

// The text that a number holds. The plain engine has the same chain, and the line below, over its own kind of text: for both in one function
// the contract would have to speak of any kind of text and be longer than the two.
fn text_at<'a>(slots: &[Option<&'a [u8]>], number: usize) -> Result<&'a [u8], PatternError>
    ensures { MatchResult result (λ t. (number < length slots.now) × (held_in slots.now number ≡ Some t.now)) (λ e. (held_in slots.now number ≡ None) × (e ≡ NothingHeld)) }
{
    slots
        .get(number)
        .copied()
        .flatten()
        .ok_or(PatternError::NothingHeld)
}

// The first number that is free.
fn free(slots: &[Option<&[u8]>]) -> Option<usize>
    ensures { MatchOption result ((k : ℕ) → k < length slots.now → one (held_in slots.now k) ≡ 1) (λ i. (i < length slots.now) × (held_in slots.now i ≡ None)) }
{
    slots.iter().position(|slot| slot.is_none())
}

impl<'a> PatternEngine for AnswerList<'a> {
    type Match = AnswerMatch<'a>;

    ghost view = { list_view };

    fn hold(&mut self, text: &[u8], _leave: Leave) -> Result<usize, PatternError> {
        let row = find(self.rows, text).ok_or(PatternError::InvalidPattern)?;
        let number = free(&self.slots).ok_or(PatternError::EngineFull)?;
        self.slots[number] = Some(row.text);
        Ok(number)
    }

    fn release(&mut self, number: usize) -> Result<(), PatternError> {
        text_at(&self.slots, number)?;
        self.slots[number] = None;
        Ok(())
    }

    fn emptied(self) -> AnswerList<'a> {
        AnswerList::over(self.rows)
    }

    fn count_text(&self, text: &[u8]) -> Option<usize> {
        count_of(self.rows, text)
    }

    fn count(&self, number: usize) -> Result<usize, PatternError> {
        let text = text_at(&self.slots, number)?;
        count_of(self.rows, text).ok_or(PatternError::InvalidPattern)
    }

    fn matched(&self, number: usize, name: &[u8]) -> Result<Option<AnswerMatch<'a>>, PatternError> {
        let text = text_at(&self.slots, number)?;
        Ok(match_of(self.rows, text, name))
    }
}
