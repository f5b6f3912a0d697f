ghost use Rattle.std.specs.Prelude.{◌≡◌, ◌+◌, ◌*◌, ◌≤◌, length, IfOk, vec_len};
ghost use Rattle.tapes.specs.Tape.{tape_view, Opened};

use crate::check::beginning;
use crate::lay::lay;
use crate::nodes::Node;
use crate::tape::Tape;
use std::alloc::{AllocError, Global};
use terms::TermSource;

impl<'a> Tape<'a> {
    // Opens the nodes before the first bad one.
    pub fn open(heap: Global, nodes: &'a [Node<'a>]) -> Result<Tape<'a>, AllocError>
        ensures opens { IfOk result (λ s. Opened nodes.now (tape_view s)) }
        ensures room { IfOk result (λ s. vec_len s.starts + vec_len s.kids ≤ 2 * length nodes.now) }
    {
        lay(heap, &nodes[..beginning(nodes)])
    }

    // The numbers of the children of a term, none where there is no such term.
    pub(crate) fn children(&self, t: usize) -> &[usize]
        ensures { result.now ≡ (tape_view self.now).children t }
    {
        let Some(node) = self.nodes.get(t) else {
            return &[];
        };
        let start = self.starts[t];
        &self.kids.as_slice()[start..start + node.children]
    }
}

impl TermSource for Tape<'_> {
    ghost view = { tape_view };

    fn count(&self) -> usize {
        self.nodes.len()
    }

    fn name_len(&self, t: usize) -> Option<usize> {
        Some(self.nodes.get(t)?.name.len())
    }

    fn name_byte(&self, t: usize, i: usize) -> Option<u8> {
        self.nodes.get(t)?.name.get(i).copied()
    }

    fn child_count(&self, t: usize) -> Option<usize> {
        Some(self.nodes.get(t)?.children)
    }

    fn child(&self, t: usize, i: usize) -> Option<usize> {
        self.children(t).get(i).copied()
    }
}

#[cfg(test)]
mod tests {
    use super::*;
    use crate::check::check_tape;
    use std::test::Fail;

    #[test]
    fn opens_all(rt: HostRuntime) -> Result<(), Fail> {
        let nodes = [
            Node {
                name: b"a",
                children: 0,
            },
            Node {
                name: b"b",
                children: 0,
            },
            Node {
                name: b"plus",
                children: 2,
            },
            Node {
                name: b"a",
                children: 0,
            },
            Node {
                name: b"times",
                children: 2,
            },
        ];
        let tape = Tape::open(rt.alloc(), &nodes)?;
        assert!(rt; check_tape(&nodes).is_ok());
        assert_eq!(rt; (tape.count(), tape.name_byte(4, 0)), (5, Some(b't')));
        assert_eq!(rt;
            (tape.child_count(4), tape.child(4, 0), tape.child(4, 1)),
            (Some(2), Some(2), Some(3))
        );
        Ok(())
    }

    #[test]
    fn stops_at_a_bad_node(rt: HostRuntime) -> Result<(), Fail> {
        let nodes = [
            Node {
                name: b"a",
                children: 0,
            },
            Node {
                name: b"f",
                children: 2,
            },
        ];
        let tape = Tape::open(rt.alloc(), &nodes)?;
        assert_eq!(rt; tape.count(), 1);
        match check_tape(&nodes) {
            Ok(()) => Err(Fail::new("a bad node passed")),
            Err(e) => {
                assert_eq!(rt; (e.place, e.length), (1, 0));
                Ok(())
            },
        }
    }
}
