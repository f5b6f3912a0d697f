ghost use Rattle.std.specs.Prelude.{◌≡◌, List, Option};
ghost use Rattle.engine.specs.declared.span.Span.{Span};
ghost use Rattle.engine.specs.Rules.{span_at};

// The most bytes that a name may have that is matched. Sources of terms have the same number for their names; neither crate is above the other.
pub const LONGEST_NAME: usize = 255;

// A part of a name, from one place up to another.
#[derive(Clone, Copy, Debug, PartialEq, Eq)]
pub struct Span {
    pub from: usize,
    pub to: usize,
}

// A match: its spans by number, read without matching again.
pub trait Spans {
    ghost listed: { Self → List (Option Span) };

    fn at(&self, k: usize) -> Option<Span>
        ensures { result ≡ span_at (listed self.now) k };
}
