// The commands of a code, read one by one.
#![tactic(auto)]

mod commands;
mod cursor;

pub use commands::Command;
pub use cursor::Commands;
