ghost use Rattle.std.specs.Prelude.{◌≡◌, ℕ, ◌+◌, ◌<◌, ◌≤◌, length, vec_len, slice_index};
ghost use Rattle.tapes.specs.Roots.{children_of};
ghost use Rattle.tapes.specs.Nodes.{count_at, Lawful};

use crate::nodes::Node;

// A source over nodes, which are lawful.
// The children of the term `t` stand in `kids` from `starts[t]` on: two lists for all terms, since a list for each term would
// be an allocation for each, and the room that opening takes is promised for two.
#[derive(Drop)]
pub struct Tape<'a> {
    pub(crate) nodes: &'a [Node<'a>],
    pub(crate) starts: Vec<usize>,
    pub(crate) kids: Vec<usize>,
    ghost each: { vec_len starts ≡ length nodes.now },
    ghost lawful: { (t : ℕ) → t < length nodes.now → Lawful nodes.now t },
    ghost laid: { (t : ℕ) → t < length nodes.now → slice_index starts.items t + count_at nodes.now t ≤ vec_len kids },
    ghost kept: { (t i : ℕ) → (t < length nodes.now) × (i < count_at nodes.now t) → slice_index kids.items (slice_index starts.items t + i) ≡ slice_index (children_of (count_at nodes.now) t) i },
}
