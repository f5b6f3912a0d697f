ghost use Rattle.std.specs.Prelude.{◌≡◌, length};

use crate::text::Text;

// How many texts an engine holds at most.
pub(crate) const HOLDINGS: usize = 16;

// The plain engine: a place for each of its numbers, as many as there can be, since no call takes memory.
#[derive(Drop)]
pub struct PlainEngine {
    pub(crate) slots: [Option<Text>; HOLDINGS],
    ghost sixteen: { length slots ≡ 16 },
}
