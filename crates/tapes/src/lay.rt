ghost use Rattle.std.specs.Prelude.{◌≡◌, ℕ, ◌+◌, ◌*◌, ◌<◌, ◌≤◌, ◌++◌, length, take, drop, IfOk, vec_len, OnOk};
ghost use Rattle.tapes.specs.Nodes.{Lawful};

use crate::nodes::Node;
use crate::tape::Tape;
use std::alloc::{AllocError, Global};

// Moves the roots from `first` on to the children.
fn move_last(roots: &mut Vec<usize>, first: usize, kids: &mut Vec<usize>) -> Result<(), AllocError>
    requires { first ≤ vec_len roots.old }
    ensures kids { OnOk result (kids.new.items ≡ kids.old.items ++ drop first roots.old.items) }
    ensures roots { OnOk result (roots.new.items ≡ take first roots.old.items) }
{
    kids.extend_from_slice(&roots.as_slice()[first..])?;
    roots.truncate(first);
    Ok(())
}

// Lays out the children of the terms, which are lawful.
pub(crate) fn lay<'a>(heap: Global, nodes: &'a [Node<'a>]) -> Result<Tape<'a>, AllocError>
    requires { (t : ℕ) → t < length nodes.now → Lawful nodes.now t }
    ensures nodes { IfOk result (λ s. s.nodes.now ≡ nodes.now) }
    ensures room { IfOk result (λ s. vec_len s.starts + vec_len s.kids ≤ 2 * length nodes.now) }
{
    let mut roots = Vec::new(heap);
    let mut starts = Vec::new(heap);
    let mut kids = Vec::new(heap);
    for (t, node) in nodes.iter().enumerate() {
        let first = roots.len() - node.children;
        starts.push(kids.len())?;
        move_last(&mut roots, first, &mut kids)?;
        roots.push(t)?;
    }
    Ok(Tape {
        nodes,
        starts,
        kids,
    })
}
