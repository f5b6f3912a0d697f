ghost use Rattle.std.specs.Prelude.{IfOk};
ghost use Rattle.tables.specs.Table.{Written, Opened};
ghost use Rattle.tapes.specs.Tape.{tape_view};

use crate::tape::Tape;
use std::alloc::{AllocError, Global};
use tables::Row;

impl<'a> Tape<'a> {
    // The rows of a table with the same terms: they open as the tape's own source.
    pub fn rows(&self, heap: Global) -> Result<Vec<Row<'_>>, AllocError>
        ensures written { IfOk result (λ v. Written (tape_view self.now) v.items) }
        ensures opens { IfOk result (λ v. Opened v.items (tape_view self.now)) }
    {
        let mut rows = Vec::new(heap);
        for (t, node) in self.nodes.iter().enumerate() {
            rows.push(Row {
                name: node.name,
                children: self.children(t),
            })?;
        }
        Ok(rows)
    }
}

#[cfg(test)]
mod tests {
    use super::*;
    use crate::nodes::Node;
    use std::test::Fail;
    use tables::Table;
    use terms::TermSource;

    #[test]
    fn opens_as_a_table(rt: HostRuntime) -> Result<(), Fail> {
        let nodes = [
            Node {
                name: b"a",
                children: 0,
            },
            Node {
                name: b"f",
                children: 1,
            },
        ];
        let tape = Tape::open(rt.alloc(), &nodes)?;
        let rows = tape.rows(rt.alloc())?;
        assert_eq!(rt; Table::open(&rows).child(1, 0), Some(0));
        Ok(())
    }
}
