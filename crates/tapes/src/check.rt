ghost use Rattle.std.specs.Prelude.{length, Decides};
ghost use Rattle.terms.specs.Opening.{Beginning, Checked};
ghost use Rattle.tapes.specs.Nodes.{LawfulNode, Lawful};

use crate::nodes::Node;
use refusal::ParseError;
use terms::{LONGEST_NAME, PrintError, check_beginning};

// Whether a node may stand after so many subtrees.
fn lawful(node: &Node<'_>, roots: usize) -> bool
    ensures { Decides result (LawfulNode roots node.now) }
{
    node.name.len() <= LONGEST_NAME && node.children <= roots
}

// How many nodes stand before the first bad one.
pub(crate) fn beginning(nodes: &[Node<'_>]) -> usize
    ensures { Beginning (Lawful nodes.now) (length nodes.now) result }
{
    let mut roots: usize = 0;
    for (t, node) in nodes.iter().enumerate() {
        if !lawful(node, roots) {
            return t;
        }
        roots = roots - node.children + 1;
    }
    nodes.len()
}

// Refuses the first bad node.
pub fn check_tape(nodes: &[Node<'_>]) -> Result<(), ParseError<PrintError>>
    ensures { Checked (Lawful nodes.now) (length nodes.now) result }
{
    check_beginning(beginning(nodes), nodes.len())
}
