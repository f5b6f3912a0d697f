// The moves of a print: bytes and visits, the children that indices name, what a code has at a place.
#![tactic(auto)]

mod captures;
mod children;
mod places;
mod visits;
mod writing;

pub use captures::{captured, copy_name};
pub use children::{child_number, child_of, end_of, first_of, onward, place_of};
pub use places::{bracketed, pass_operands};
pub use visits::enter;
pub use writing::LinePen;
