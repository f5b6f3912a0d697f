// What a pattern engine is: a rule, a holding, the tickets of what is prepared, and the questions.
#![tactic(auto)]

mod error;
mod pattern_engine;
mod span;
mod ticket;

pub use error::PatternError;
pub use pattern_engine::PatternEngine;
pub use span::{LONGEST_NAME, Span, Spans};
pub use ticket::{Leave, Ticket};
