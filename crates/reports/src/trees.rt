use crate::report::Report;
use crate::show::{Shown, Underlined};
use refusal::{ParseError, Refusal};
use std::alloc::{AllocError, Global};
use std::fmt::Write;
use std::mem;
use terms::{PrintError, TermSource};

// How far a tree is indented at most.
const DEEPEST: usize = 32;

// A term that is due, and how deep it stands.
#[derive(Clone, Copy)]
struct Due {
    term: usize,
    depth: usize,
}

// Sets a term's note, and answers whether it was set before; so too where there is no such term.
fn mark(marks: &mut Vec<bool>, t: usize) -> bool {
    match marks.get_mut(t) {
        Some(note) => mem::replace(note, true),
        None => true,
    }
}

// What is made here is allocated, so the allocator goes with the source.

// The numbers of a term's children.
fn children<S: TermSource>(heap: Global, source: &S, t: usize) -> Result<Vec<usize>, AllocError> {
    let count = source.child_count(t).unwrap_or(0);
    (0..count)
        .map(|i| source.child(t, i).unwrap_or(0))
        .collect(heap)
}

fn name_of<S: TermSource>(heap: Global, source: &S, t: usize) -> Result<Vec<u8>, AllocError> {
    let size = source.name_len(t).unwrap_or(0);
    (0..size)
        .map(|i| source.name_byte(t, i).unwrap_or(0))
        .collect(heap)
}

// The terms that are no child, the last first, and how many more can become due.
fn roots<S: TermSource>(heap: Global, source: &S) -> Result<(Vec<Due>, usize), AllocError> {
    let count = source.count();
    let mut below = vec![in heap; false; count]?;
    let mut all = count;
    // by number, since a number is what names a term
    for t in 0..count {
        let kids = children(heap, source, t)?;
        all = all.saturating_add(kids.len());
        for child in &kids {
            mark(&mut below, *child);
        }
    }
    let mut due = Vec::new(heap);
    for t in (0..count).rev() {
        if !mark(&mut below, t) {
            due.push(Due { term: t, depth: 0 })?;
        }
    }
    Ok((due, all))
}

impl Report {
    // The terms of a source as indented trees, with their numbers. The children of a term are shown where it stands first.
    pub fn push_trees<S: TermSource>(&mut self, source: &S) -> anyhow::Result<()> {
        let heap = self.heap();
        let (mut due, all) = roots(heap, source)?;
        let mut shown = vec![in heap; false; source.count()]?;
        for _ in 0..all {
            let Some(next) = due.pop() else {
                return Ok(());
            };
            let again = mark(&mut shown, next.term);
            self.push_term(source, next, again)?;
            if !again {
                let depth = next.depth.saturating_add(1);
                for term in children(heap, source, next.term)?.iter().rev() {
                    due.push(Due { term: *term, depth })?;
                }
            }
        }
        Ok(())
    }

    // A term on a line of its own: its number and its name, and whether its children stand further up.
    fn push_term<S: TermSource>(
        &mut self,
        source: &S,
        due: Due,
        again: bool,
    ) -> anyhow::Result<()> {
        self.text.push_str("    ")?;
        for _ in 0..due.depth.min(DEEPEST) {
            self.text.push_str("  ")?;
        }
        let number = due.term;
        let name = name_of(self.heap(), source, number)?;
        write!(self.text, "{number} {}", Shown::new(name.as_slice()))?;
        if again && source.child_count(number).unwrap_or(0) > 0 {
            self.text.push_str(", as above")?;
        }
        self.text.push('\n')?;
        Ok(())
    }

    // The first bad term, with its line marked.
    pub fn push_bad_term(
        &mut self,
        number: usize,
        line: &[u8],
        fault: ParseError<PrintError>,
    ) -> anyhow::Result<()> {
        let refusal = fault.number();
        let name = fault.name();
        let place = fault.place;
        writeln!(
            self.text,
            "  refused {refusal} {name}: term {place}, in line {number}"
        )?;
        let whole = Underlined {
            text: line,
            place: 0,
            length: line.len(),
        };
        write!(self.text, "{whole}")?;
        Ok(())
    }
}
