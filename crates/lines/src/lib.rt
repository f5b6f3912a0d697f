// The line of a term: what happens while it is printed, by a choice of templates and a source of terms, and how limits and room cut it.
#![tactic(auto)]

mod answer;
mod chooser;
mod choosing;
mod error;
mod laws;

pub use answer::{Printed, Unfinished};
pub use chooser::Choice;
pub use choosing::Chooser;
pub use error::LineError;
pub use laws::{lines_alike, lines_cut, lines_unfold, worked_line};
