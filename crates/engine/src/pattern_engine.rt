ghost use Rattle.std.specs.Prelude.{◌≡◌, ℕ, None, MatchResult};
ghost use Rattle.std.specs.Result.{result_err};
ghost use Rattle.engine.specs.Holdings.{View, Fixed, Took, Freed, Kept, refusal_of, unheld, count_at, match_at, seen};

use crate::error::PatternError;
use crate::span::Spans;
use crate::ticket::{Leave, Ticket};

// What means a rule and a holding: `view` has both, with the law. No call changes the rule or the number of holdings.
pub trait PatternEngine: Sized {
    type Match: Spans + Drop;

    ghost view: { Self → View };

    // Holds a text by a free number; 12 where it has no count, then 33 where all numbers are taken.
    fn hold(&mut self, text: &[u8], leave: Leave) -> Result<usize, PatternError>
        ensures fixed { Fixed (view self.old) (view self.new) }
        ensures refusal { result_err result ≡ refusal_of (view self.old) text.now }
        ensures cases { MatchResult result (λ n. Took (view self.old).held (view self.new).held n text.now) (λ _. Kept (view self.old).held (view self.new).held) };

    // Frees a number; 38 where it holds nothing.
    fn release(&mut self, number: usize) -> Result<(), PatternError>
        ensures fixed { Fixed (view self.old) (view self.new) }
        ensures refusal { result_err result ≡ unheld ((view self.old).held number) }
        ensures freed { Freed (view self.old).held (view self.new).held number };

    // The engine with nothing held.
    fn emptied(self) -> Self
        ensures fixed { Fixed (view self) (view result) }
        ensures free { (k : ℕ) → (view result).held k ≡ None };

    // The group count of a text, where it is a pattern; nothing is held.
    fn count_text(&self, text: &[u8]) -> Option<usize>
        ensures { result ≡ (view self.now).rule.count text.now };

    // The group count of what a number holds.
    fn count(&self, number: usize) -> Result<usize, PatternError>
        ensures { result ≡ count_at (view self.now) number };

    // The match of what a number holds with a name, if there is one.
    fn matched(&self, number: usize, name: &[u8]) -> Result<Option<Self::Match>, PatternError>
        ensures { seen Self.Match.Spans.listed result ≡ match_at (view self.now) number name.now };

    // Holds a text by a free number, and makes the ticket for it.
    fn prepare(&mut self, text: &[u8]) -> Result<Ticket, PatternError>
        ensures fixed { Fixed (view self.old) (view self.new) }
        ensures refusal { result_err result ≡ refusal_of (view self.old) text.now }
        ensures cases { MatchResult result (λ t. Took (view self.old).held (view self.new).held t.number text.now) (λ _. Kept (view self.old).held (view self.new).held) }
    {
        self.hold(text, Leave::new()).map(Ticket::of)
    }

    // Frees the ticket's number.
    fn give_back(&mut self, ticket: Ticket) -> Result<(), PatternError>
        ensures fixed { Fixed (view self.old) (view self.new) }
        ensures refusal { result_err result ≡ unheld ((view self.old).held ticket.number) }
        ensures freed { Freed (view self.old).held (view self.new).held ticket.number }
    {
        self.release(ticket.enter())
    }
}
