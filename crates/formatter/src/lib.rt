// The whole reading of a template, its separators read too.
#![tactic(auto)]

mod defns;
mod error;
mod halves;
mod parse;

pub use defns::Formatter;
pub use error::FallbackParseError;
pub use halves::halve;
pub use parse::{parse_fallback, parse_formatter};
