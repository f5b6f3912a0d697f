ghost use Rattle.std.specs.Prelude.{◌≡◌, length};

use engine::Span;

// How many texts an engine holds at most.
pub(crate) const HOLDINGS: usize = 32;

// That a text is a pattern with so many groups, and that it matches the name with these spans.
#[derive(Clone, Copy)]
pub struct AnswerRow<'a> {
    pub text: &'a [u8],
    pub count: usize,
    pub name: &'a [u8],
    pub spans: &'a [Option<Span>],
}

// The rows, and for each number the text that it holds: room for as many as can be held, since no call takes memory.
#[derive(Drop)]
pub struct AnswerList<'a> {
    pub(crate) rows: &'a [AnswerRow<'a>],
    pub(crate) slots: [Option<&'a [u8]>; HOLDINGS],
    ghost full: { length slots ≡ 32 },
}
