// The template grammar: numbers and readings, the grammar as a relation, and what its readers answer.
#![tactic(auto)]

mod defns;
mod limits;
mod theorems;

pub use defns::{BindPowerPair, ChildIndex, NoIndex};
pub use limits::{CODE_LIMIT, MATCHER_LIMIT, PIECE_ALLOWANCE, STEP_ALLOWANCE, TEMPLATE_LIMIT};
pub use theorems::{read_as_the_grammar, worked_templates};
