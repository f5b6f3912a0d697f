// The print of a term into a buffer.
#![tactic(auto)]

mod job;
mod printing;
mod row;
mod show;

pub use printing::print;
