// The check of a definition with an engine: its pattern prepared, its separators read, its captures counted.
#![tactic(auto)]

mod check;
mod error;

pub use check::check_definition;
pub use error::ConversionError;
