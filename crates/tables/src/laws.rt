ghost use Rattle.tables.specs.Table.{OpensOnce, Rewritten};

// Stands for the theorem: rows open as one source, up to equality.
pub fn table_opens_once() -> bool
    ensures { OpensOnce }
{
    true
}

// Stands for the theorem: the rows of a source open as that source.
pub fn rows_of_source() -> bool
    ensures { Rewritten }
{
    true
}
