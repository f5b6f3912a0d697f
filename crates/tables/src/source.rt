ghost use Rattle.tables.specs.Table.{table_view, Opened};

use crate::check::beginning;
use crate::rows::Row;
use crate::table::Table;
use terms::TermSource;

impl<'a> Table<'a> {
    // Opens the rows before the first bad one.
    pub fn open(rows: &'a [Row<'a>]) -> Table<'a>
        ensures { Opened rows.now (table_view result) }
    {
        Table {
            rows: &rows[..beginning(rows)],
        }
    }
}

impl TermSource for Table<'_> {
    ghost view = { table_view };

    fn count(&self) -> usize {
        self.rows.len()
    }

    fn name_len(&self, t: usize) -> Option<usize> {
        Some(self.rows.get(t)?.name.len())
    }

    fn name_byte(&self, t: usize, i: usize) -> Option<u8> {
        self.rows.get(t)?.name.get(i).copied()
    }

    fn child_count(&self, t: usize) -> Option<usize> {
        Some(self.rows.get(t)?.children.len())
    }

    fn child(&self, t: usize, i: usize) -> Option<usize> {
        self.rows.get(t)?.children.get(i).copied()
    }
}

#[cfg(test)]
mod tests {
    use super::*;
    use crate::check::check_table;
    use std::test::Fail;

    #[test]
    fn opens_all(rt: HostRuntime) {
        let rows = [
            Row {
                name: b"a",
                children: &[],
            },
            Row {
                name: b"b",
                children: &[],
            },
            Row {
                name: b"plus",
                children: &[0, 1],
            },
            Row {
                name: b"times",
                children: &[2, 0],
            },
        ];
        let table = Table::open(&rows);
        assert!(rt; check_table(&rows).is_ok());
        assert_eq!(rt;
            (table.count(), table.name_len(3), table.name_byte(3, 0)),
            (4, Some(5), Some(b't'))
        );
        assert_eq!(rt;
            (table.child_count(3), table.child(3, 0), table.child(3, 2)),
            (Some(2), Some(2), None)
        );
    }

    #[test]
    fn stops_at_a_bad_row(rt: HostRuntime) -> Result<(), Fail> {
        let rows = [
            Row {
                name: b"a",
                children: &[],
            },
            Row {
                name: b"f",
                children: &[1],
            },
            Row {
                name: b"b",
                children: &[],
            },
        ];
        assert_eq!(rt; Table::open(&rows).count(), 1);
        match check_table(&rows) {
            Ok(()) => Err(Fail::new("a bad row passed")),
            Err(e) => {
                assert_eq!(rt; (e.place, e.length), (1, 0));
                Ok(())
            },
        }
    }
}
