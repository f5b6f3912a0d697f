// Readers for matchers: what a definition is for.
#![tactic(auto)]

mod defns_const;
mod parse;

pub use defns_const::{MatcherConst, MatcherKindConst};
pub use grammar::MATCHER_LIMIT;
pub use parse::parse_matcher;
