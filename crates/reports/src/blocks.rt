use crate::report::Report;
use refusal::ParseError;
use std::alloc::Global;
use std::fmt::Write;
use std::str;
use tables::{Row, Table, check_table};
use tapes::{Node, Tape, check_tape};
use terms::{PrintError, TermSource};

// A line of terms: its number on the page, the line as typed, and the term.
#[derive(Drop)]
pub struct Typed {
    line: usize,
    text: Vec<u8>,
    term: typed::Typed,
}

impl Typed {
    // How many numbers stand behind the name.
    pub fn count(&self) -> usize {
        self.term.numbers.len()
    }
}

// A name and numbers, parted by blanks, in a line.
pub fn typed_term(
    heap: Global,
    line: usize,
    text: &[u8],
    words: &[u8],
) -> anyhow::Result<Option<Typed>> {
    let Ok(words) = str::from_utf8(words) else {
        return Ok(None);
    };
    let mut words = words.split_whitespace();
    let Some(name) = words.next() else {
        return Ok(None);
    };
    let mut numbers = Vec::new(heap);
    for word in words {
        let Ok(number) = word.parse::<usize>() else {
            return Ok(None);
        };
        numbers.push(number)?;
    }
    let name = name.as_bytes().to_vec(heap)?;
    Ok(Some(Typed {
        line,
        text: text.to_vec(heap)?,
        term: typed::Typed { name, numbers },
    }))
}

impl Report {
    // Reports a table that starts at a line; whether no term of it is bad.
    pub fn table(&mut self, start: usize, terms: &[Typed]) -> anyhow::Result<bool> {
        let size = terms.len();
        writeln!(self.text, "line {start}: a table, lines {size}")?;
        let rows: Vec<Row<'_>> = terms
            .iter()
            .map(|line| line.term.row())
            .collect(self.heap())?;
        let table = Table::open(rows.as_slice());
        self.push_opened(terms, check_table(rows.as_slice()), &table)
    }

    // Reports a tape that starts at a line; whether no term of it is bad.
    pub fn tape(&mut self, start: usize, terms: &[Typed]) -> anyhow::Result<bool> {
        let size = terms.len();
        writeln!(self.text, "line {start}: a tape, lines {size}")?;
        let nodes: Vec<Node<'_>> = terms
            .iter()
            .map(|line| line.term.node())
            .collect(self.heap())?;
        let tape = Tape::open(self.heap(), nodes.as_slice())?;
        self.push_opened(terms, check_tape(nodes.as_slice()), &tape)
    }

    // The first bad term, if there is one, with its line marked, and the source that the terms open as; whether none is bad.
    fn push_opened<S: TermSource>(
        &mut self,
        terms: &[Typed],
        check: Result<(), ParseError<PrintError>>,
        source: &S,
    ) -> anyhow::Result<bool> {
        if let Err(fault) = check {
            let place = fault.place;
            if let Some(bad) = terms.get(place) {
                self.push_bad_term(bad.line, bad.text.as_slice(), fault)?;
            }
            writeln!(self.text, "  opened before it: {place}")?;
        }
        self.push_trees(source)?;
        Ok(check.is_ok())
    }
}
