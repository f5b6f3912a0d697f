// The answer list: an engine whose rule is that of the rows that it is made from.
#![tactic(auto)]

mod answer_list;
mod answers;
mod rows;

pub use answers::AnswerMatch;
pub use rows::{AnswerList, AnswerRow};
