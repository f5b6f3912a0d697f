// Writing bytes into a caller's buffer, one after the other or all at once.
#![tactic(auto)]

mod delivery;
mod writing;

pub use delivery::deliver;
pub use writing::{Full, Pen};
