// What a book of definitions owes: the register that the calls' arguments make, and what each call answers.
#![tactic(auto)]

mod answer;
mod call;
mod error;
mod laws;

pub use answer::Answer;
pub use call::Call;
pub use error::BookError;
pub use laws::register_laws;
