// What the page checker writes of a definition, a fallback or terms: what each reads as, or where it is at fault.
#![tactic(auto)]

mod blocks;
mod definitions;
mod faults;
mod readings;
mod report;
mod show;
mod trees;

pub use blocks::{Typed, typed_term};
pub use report::Report;
