// The calls that a program in C or Rust makes: on numbers, slices of bytes and plain records.
#![tactic(auto)]

mod calls;
mod faults;
mod parts;
mod records;

pub use calls::{
    fulgavod_encode, fulgavod_formatter, fulgavod_groups, fulgavod_matcher, fulgavod_template,
    fulgavod_write_back,
};
pub use parts::fulgavod_match;
pub use records::{Fault, Groups, Matched, Matcher, Part, Template, Written};
