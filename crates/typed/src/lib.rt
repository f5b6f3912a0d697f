// Terms as they are typed: a name, and numbers behind it.
#![tactic(auto)]

ghost use Rattle.std.specs.Prelude.{◌≡◌, map, IfOk, slice_index};
ghost use Rattle.typed.specs.Typed.{typed_name, typed_numbers, count_of, row_name, row_children, node_name, node_children};

use std::alloc::{AllocError, Global};
use tables::Row;
use tapes::Node;

// A term: its name, and the numbers behind it.
#[derive(Drop)]
pub struct Typed {
    pub name: Vec<u8>,
    pub numbers: Vec<usize>,
}

impl Typed {
    // The row of a table whose children are the numbers.
    pub fn row(&self) -> Row<'_>
        ensures name { result.name.now ≡ self.now.name.items }
        ensures children { result.children.now ≡ self.now.numbers.items }
    {
        Row {
            name: self.name.as_slice(),
            children: self.numbers.as_slice(),
        }
    }

    // The node of a tape whose child count is the first number, 0 where there is none.
    pub fn node(&self) -> Node<'_>
        ensures name { result.name.now ≡ self.now.name.items }
        ensures children { result.children ≡ count_of self.now }
    {
        Node {
            name: self.name.as_slice(),
            children: self.numbers.first().copied().unwrap_or(0),
        }
    }
}

// The rows of terms. By a loop, here and for nodes, since of what `collect` makes of things that borrow nothing is proved.
pub fn rows(heap: Global, terms: &[Typed]) -> Result<Vec<Row<'_>>, AllocError>
    ensures names { IfOk result (λ v. map row_name v.items ≡ map typed_name terms.now) }
    ensures children { IfOk result (λ v. map row_children v.items ≡ map typed_numbers terms.now) }
{
    let mut rows = Vec::new(heap);
    for term in terms {
        rows.push(term.row())?;
    }
    Ok(rows)
}

// The nodes of terms.
pub fn nodes(heap: Global, terms: &[Typed]) -> Result<Vec<Node<'_>>, AllocError>
    ensures names { IfOk result (λ v. map node_name v.items ≡ map typed_name terms.now) }
    ensures counts { IfOk result (λ v. map node_children v.items ≡ map count_of terms.now) }
{
    let mut nodes = Vec::new(heap);
    for term in terms {
        nodes.push(term.node())?;
    }
    Ok(nodes)
}

#[cfg(test)]
mod tests {
    use super::*;
    use std::test::Fail;

    #[test]
    fn rows_and_nodes(rt: HostRuntime) -> Result<(), Fail> {
        let heap = rt.alloc();
        let terms = vec![in heap;
            Typed {
                name: b"f".to_vec(heap)?,
                numbers: vec![in heap; 2, 0]?
            },
        ]?;
        let rows = rows(heap, terms.as_slice())?;
        let nodes = nodes(heap, terms.as_slice())?;
        assert_eq!(rt;
            (rows[0].name, rows[0].children),
            (b"f".as_slice(), [2usize, 0].as_slice())
        );
        assert_eq!(rt; nodes[0].children, 2);
        Ok(())
    }
}
