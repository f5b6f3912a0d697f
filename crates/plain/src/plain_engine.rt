ghost use Rattle.std.specs.Prelude.{◌≡◌, ℕ, ◌<◌, length, Some, None, MatchOption, MatchResult};
ghost use Rattle.engine.specs.Holdings.{one};
ghost use Rattle.engine.specs.declared.error.PatternError.TheVariants.{NothingHeld};
ghost use Rattle.plain.specs.Texts.{text_in, chars};
ghost use Rattle.plain.specs.Slots.{held_in};
ghost use Rattle.plain.specs.Laws.{plain_view};

use crate::found::PlainMatch;
use crate::look::{count_groups, match_name};
use crate::slots::{HOLDINGS, PlainEngine};
use crate::text::Text;
use engine::{Leave, PatternEngine, PatternError};

impl PlainEngine {
    // An engine that holds nothing.
    pub fn new() -> PlainEngine
        ensures { (k : ℕ) → (plain_view result).held k ≡ None }
    {
        PlainEngine {
            slots: [None; HOLDINGS],
        }
    }
}

// The first place that is free. The answer list has the same line over its own kind of text: for both in one function the
// contract would have to speak of any kind of text and be longer than the two.
fn free(slots: &[Option<Text>]) -> Option<usize>
    ensures { MatchOption result ((k : ℕ) → k < length slots.now → one (held_in slots.now k) ≡ 1) (λ i. (i < length slots.now) × (held_in slots.now i ≡ None)) }
{
    slots.iter().position(|slot| slot.is_none())
}

// The text that a number holds; as with the places, the answer list has the same chain.
fn text_at(slots: &[Option<Text>], number: usize) -> Result<Text, PatternError>
    ensures { MatchResult result (λ t. (number < length slots.now) × (held_in slots.now number ≡ Some (chars t))) (λ e. (held_in slots.now number ≡ None) × (e ≡ NothingHeld)) }
{
    slots
        .get(number)
        .copied()
        .flatten()
        .ok_or(PatternError::NothingHeld)
}

impl PatternEngine for PlainEngine {
    type Match = PlainMatch;

    ghost view = { plain_view };

    fn hold(&mut self, text: &[u8], _leave: Leave) -> Result<usize, PatternError> {
        let kept = Text::new(text).ok_or(PatternError::InvalidPattern)?;
        count_groups(text).ok_or(PatternError::InvalidPattern)?;
        let number = free(&self.slots).ok_or(PatternError::EngineFull)?;
        self.slots[number] = Some(kept);
        Ok(number)
    }

    fn release(&mut self, number: usize) -> Result<(), PatternError> {
        text_at(&self.slots, number)?;
        self.slots[number] = None;
        Ok(())
    }

    fn emptied(self) -> PlainEngine {
        PlainEngine::new()
    }

    fn count_text(&self, text: &[u8]) -> Option<usize> {
        count_groups(text)
    }

    fn count(&self, number: usize) -> Result<usize, PatternError> {
        let text = text_at(&self.slots, number)?;
        count_groups(text.as_slice()).ok_or(PatternError::InvalidPattern)
    }

    fn matched(&self, number: usize, name: &[u8]) -> Result<Option<PlainMatch>, PatternError> {
        let text = text_at(&self.slots, number)?;
        Ok(match_name(text.as_slice(), name))
    }
}
