use crate::calls::Verdict;
use crate::faults::Fault;
use crate::hex::{unhex, write_hex};
use crate::parted::write_parted;
use refusal::ParseError;
use std::alloc::Global;
use std::fmt;
use tables::{Table, check_table};
use tapes::{Tape, check_tape};
use terms::{PrintError, TermSource};
use typed::Typed;

// What is read here is allocated, so the allocator goes with the word.

// What is read of each part of a word, `~` for none; none where a part reads as nothing.
fn parts<T: Drop, F: Fn(Global, &str) -> anyhow::Result<Option<T>>>(
    heap: Global,
    word: &str,
    mark: char,
    read: F,
) -> anyhow::Result<Option<Vec<T>>>
    requires { F.IsAlwaysCallable read }
{
    let mut all = Vec::new(heap);
    if word == "~" {
        return Ok(Some(all));
    }
    for part in word.split(mark) {
        let Some(thing) = read(heap, part)? else {
            return Ok(None);
        };
        all.push(thing)?;
    }
    Ok(Some(all))
}

fn number(_heap: Global, word: &str) -> anyhow::Result<Option<usize>> {
    Ok(word.parse::<usize>().ok())
}

// `NAME:NUMBERS`, the numbers parted by dots.
fn typed_term(heap: Global, word: &str) -> anyhow::Result<Option<Typed>> {
    let Some((name, behind)) = word.split_once(':') else {
        return Ok(None);
    };
    match (unhex(heap, name)?, parts(heap, behind, '.', number)?) {
        (Some(name), Some(numbers)) => Ok(Some(Typed { name, numbers })),
        _ => Ok(None),
    }
}

// Terms parted by `;`.
fn typed_terms(heap: Global, word: &str) -> anyhow::Result<Option<Vec<Typed>>> {
    parts(heap, word, ';', typed_term)
}

// The check of terms, and the source that they open as.
fn checked<S: TermSource>(
    heap: Global,
    check: Result<(), ParseError<PrintError>>,
    source: &S,
) -> anyhow::Result<Option<String>> {
    let verdict = Verdict(check.map_err(Fault));
    let terms = Terms(source);
    Ok(Some(format!(in heap; "{verdict} {terms}")?))
}

// The terms of a table: its check, and the source that it opens as.
pub fn table(heap: Global, word: &str) -> anyhow::Result<Option<String>> {
    let Some(typed) = typed_terms(heap, word)? else {
        return Ok(None);
    };
    let rows = typed::rows(heap, typed.as_slice())?;
    checked(
        heap,
        check_table(rows.as_slice()),
        &Table::open(rows.as_slice()),
    )
}

// The terms of a tape, each with its child count: the same.
pub fn tape(heap: Global, word: &str) -> anyhow::Result<Option<String>> {
    let Some(typed) = typed_terms(heap, word)? else {
        return Ok(None);
    };
    if !typed.iter().all(|term| term.numbers.len() == 1) {
        return Ok(None);
    }
    let nodes = typed::nodes(heap, typed.as_slice())?;
    let tape = Tape::open(heap, nodes.as_slice())?;
    checked(heap, check_tape(nodes.as_slice()), &tape)
}

// `COUNT TERMS`, the terms as a table has them.
#[derive(Clone, Copy)]
struct Terms<'s, S>(&'s S);

impl<S: TermSource> fmt::Display for Terms<'_, S> {
    fn fmt<W: fmt::Write>(&self, f: &mut fmt::Formatter<W>) -> fmt::Result {
        let source = self.0;
        let count = source.count();
        write!(f, "{count} ")?;
        write_parted(f, ';', (0..count).map(|number| Term { source, number }))
    }
}

// `NAME:NUMBERS`.
#[derive(Clone, Copy)]
struct Term<'s, S> {
    source: &'s S,
    number: usize,
}

impl<S: TermSource> fmt::Display for Term<'_, S> {
    fn fmt<W: fmt::Write>(&self, f: &mut fmt::Formatter<W>) -> fmt::Result {
        let Term { source, number } = *self;
        let size = source.name_len(number).unwrap_or(0);
        let children = source.child_count(number).unwrap_or(0);
        write_hex(
            f,
            (0..size).map(|i| source.name_byte(number, i).unwrap_or(0)),
        )?;
        f.write_char(':')?;
        write_parted(
            f,
            '.',
            (0..children).map(|i| source.child(number, i).unwrap_or(0)),
        )
    }
}
