// The reader of codes: which bytes are the code of an accepted template.
#![tactic(auto)]

mod checks;
mod ends;
mod walks;

pub use checks::check_code;
