// A postfix tape of terms: each node has a name and a child count, and its children are the subtrees that end just before it.
#![tactic(auto)]

mod check;
mod convert;
mod laws;
mod lay;
mod nodes;
mod source;
mod tape;

pub use check::check_tape;
pub use laws::{postfix_trees, tape_opens_once};
pub use nodes::Node;
pub use tape::Tape;
