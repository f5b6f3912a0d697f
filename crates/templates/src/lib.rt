// Readers for templates and definitions, with the parts that were typed; separators stay unread.
#![tactic(auto)]

mod bodies;
mod defns_const;
mod frames;
mod scan;
mod term_display;
mod walk;

pub use bodies::parse_template;
pub use defns_const::{FormatterConst, TermDisplayConst};
pub use grammar::TEMPLATE_LIMIT;
pub use term_display::parse_definition;
pub use walk::{Outputs, output_at};
