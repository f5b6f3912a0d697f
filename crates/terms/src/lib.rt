// Sources of terms: what one owes, what is proved of them, and the refusal of a term that breaks their law.
#![tactic(auto)]

mod error;
mod laws;
mod opening;
mod source;

pub use error::PrintError;
pub use laws::agreement;
pub use opening::check_beginning;
pub use source::{LONGEST_NAME, TermSource};
