// Codes written back as templates.
#![tactic(auto)]

mod back;
mod commands;
mod parts;
mod pen;
mod walk;

pub use back::write_back;
