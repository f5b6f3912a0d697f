// Writes the code of a template.
#![tactic(auto)]

mod commands;
mod pieces;
mod separators;
mod steps;
mod texts;
mod whole;

pub use whole::encode;
