ghost use Rattle.std.specs.Prelude.{length, Decides};
ghost use Rattle.terms.specs.Opening.{Beginning, Checked};
ghost use Rattle.tables.specs.Rows.{Smaller, LawfulRow, Lawful};

use crate::rows::Row;
use refusal::ParseError;
use terms::{LONGEST_NAME, PrintError, check_beginning};

// Whether each child has a smaller number than `t`.
fn smaller(children: &[usize], t: usize) -> bool
    ensures { Decides result (Smaller t children.now) }
{
    children.iter().all(|c| *c < t)
}

// Whether a row may stand at `t`.
fn lawful(row: &Row<'_>, t: usize) -> bool
    ensures { Decides result (LawfulRow t row.now) }
{
    row.name.len() <= LONGEST_NAME && smaller(row.children, t)
}

// How many rows stand before the first bad one.
pub(crate) fn beginning(rows: &[Row<'_>]) -> usize
    ensures { Beginning (Lawful rows.now) (length rows.now) result }
{
    for (t, row) in rows.iter().enumerate() {
        if !lawful(row, t) {
            return t;
        }
    }
    rows.len()
}

// Refuses the first bad row.
pub fn check_table(rows: &[Row<'_>]) -> Result<(), ParseError<PrintError>>
    ensures { Checked (Lawful rows.now) (length rows.now) result }
{
    check_beginning(beginning(rows), rows.len())
}
