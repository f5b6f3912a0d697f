ghost use Rattle.std.specs.Prelude.{ℕ, ◌<◌, ◌≤◌, length};
ghost use Rattle.tables.specs.Rows.{name_at, children_at, Smaller};

use crate::rows::Row;

// A source over rows, which are lawful.
#[derive(Clone, Copy)]
pub struct Table<'a> {
    pub(crate) rows: &'a [Row<'a>],
    ghost short: { (t : ℕ) → t < length rows.now → length (name_at rows.now t) ≤ 255 },
    ghost below: { (t : ℕ) → t < length rows.now → Smaller t (children_at rows.now t) },
}
