// The plain engine: patterns of bytes and `.` with `*`, `+` or `?`, and of groups, matched to whole names by a table.
#![tactic(auto)]

mod cells;
mod descent;
mod finding;
mod found;
mod look;
mod plain_engine;
mod reader;
mod reading;
mod search;
mod slots;
mod text;

pub use found::PlainMatch;
pub use look::{count_groups, match_name};
pub use slots::PlainEngine;
