// Readers for the controls of a template, and for the numbers, paths and powers in them.
#![tactic(auto)]

mod captures;
mod children;
mod control;
mod defns_const;
mod halves;
mod marks;
mod numbers;
mod part;
mod paths;
mod powers;
mod ranges;
mod repeats;
mod separators;
mod walk;

pub use control::parse_control;
pub use defns_const::SubFormatterConst;
pub use halves::Halved;
pub use marks::unpaired;
pub use numbers::parse_power;
pub use walk::{Steps, step_at};
