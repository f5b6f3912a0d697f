// A table of terms: each row has a name and the numbers of its children.
#![tactic(auto)]

mod check;
mod laws;
mod rows;
mod source;
mod table;

pub use check::check_table;
pub use laws::{rows_of_source, table_opens_once};
pub use rows::Row;
pub use table::Table;
