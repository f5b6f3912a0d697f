// What it means that a pattern matches a name: the ways to share the name out, and the one in which earlier items take the most.
#![tactic(auto)]

mod items;
mod laws;

pub use items::{Item, Set, Times};
pub use laws::{matches_stand, places_stand, readings_stand};
