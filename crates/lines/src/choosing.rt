ghost use Rattle.std.specs.Prelude.{◌≡◌, length};
ghost use Rattle.lines.specs.Chosen.{Choices, answered, seen};

use crate::chooser::Choice;
use engine::Spans;

// Who chooses what a term is shown by.
pub trait Chooser {
    type Match: Spans + Drop;

    // The choice for every name and child count.
    ghost choices: { Self → Choices };

    fn choose(&self, name: &[u8], count: usize) -> Choice<'_, Self::Match>
        ensures { seen Self.Match.Spans.listed (length name.now) result ≡ answered ((choices self.now).chosen name.now count) };
}
