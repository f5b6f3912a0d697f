use crate::dump::{Capture, ReadTemplate, TypedTemplate};
use crate::faults::Fault;
use crate::hex::{Hex, unhex};
use crate::{engines, sources};
use encode::encode;
use formatter::{parse_fallback, parse_formatter};
use grammar::{CODE_LIMIT, TEMPLATE_LIMIT};
use matchers::{MatcherConst, MatcherKindConst, parse_matcher};
use std::alloc::Global;
use std::fmt;
use templates::{parse_definition, parse_template};
use written::write_back;

// `ok` and what is accepted, or `err` and why it is not.
#[derive(Clone, Copy)]
pub struct Answer<T, E>(pub Result<T, E>);

impl<T: fmt::Display, E: fmt::Display> fmt::Display for Answer<T, E> {
    fn fmt<W: fmt::Write>(&self, f: &mut fmt::Formatter<W>) -> fmt::Result {
        match &self.0 {
            Ok(accepted) => write!(f, "ok {accepted}"),
            Err(fault) => write!(f, "err {fault}"),
        }
    }
}

// `ok` alone, or `err` and why not: with nothing to show behind it no blank stands there.
#[derive(Clone, Copy)]
pub struct Verdict<E>(pub Result<(), E>);

impl<E: fmt::Display> fmt::Display for Verdict<E> {
    fn fmt<W: fmt::Write>(&self, f: &mut fmt::Formatter<W>) -> fmt::Result {
        match &self.0 {
            Ok(()) => f.write_str("ok"),
            Err(fault) => write!(f, "err {fault}"),
        }
    }
}

// The answer to a line.
pub fn answer_to(heap: Global, line: &str) -> anyhow::Result<String> {
    match known(heap, line)? {
        Some(text) => Ok(text),
        None => said(heap, "bad command"),
    }
}

// The same, none for a line that is not known.
fn known(heap: Global, line: &str) -> anyhow::Result<Option<String>> {
    let mut words = line.split_whitespace();
    let command = words.next().unwrap_or("");
    let one = words.next();
    let two = words.next();
    match (command, one, two) {
        ("table", Some(terms), None) => sources::table(heap, terms),
        ("tape", Some(terms), None) => sources::tape(heap, terms),
        ("display" | "match", _, None) => Ok(None),
        _ => {
            let first = unhex(heap, one.unwrap_or("?"))?;
            let second = unhex(heap, two.unwrap_or("-"))?;
            match (first, second, words.next()) {
                (Some(a), Some(b), None) => call(heap, command, a.as_slice(), b.as_slice()),
                _ => Ok(None),
            }
        }
    }
}

pub fn said<T: fmt::Display + Drop>(heap: Global, answer: T) -> anyhow::Result<String> {
    Ok(answer.to_string(heap)?)
}

fn call(heap: Global, command: &str, a: &[u8], b: &[u8]) -> anyhow::Result<Option<String>> {
    Ok(Some(match command {
        "template" => said(
            heap,
            Answer(parse_template(a).map(TypedTemplate).map_err(Fault)),
        )?,
        "formatter" => said(
            heap,
            Answer(parse_formatter(a).map(ReadTemplate).map_err(Fault)),
        )?,
        "matcher" => said(heap, Answer(parse_matcher(a).map(Matcher).map_err(Fault)))?,
        "definition" => said(
            heap,
            Verdict(parse_definition(a, b).map(|_| ()).map_err(Fault)),
        )?,
        "fallback" => fallback(heap, a)?,
        "code" => code(heap, a)?,
        "decode" => decode(heap, a)?,
        "display" => said(heap, Verdict(engines::display(a, b).map_err(Fault)))?,
        "match" => match engines::matching(a, b) {
            Ok(found) => said(heap, found)?,
            Err(fault) => said(heap, Verdict(Err(Fault(fault))))?,
        },
        _ => return Ok(None),
    }))
}

// `exact DATA COUNT` or `pattern DATA COUNT`.
#[derive(Clone, Copy)]
struct Matcher<'a>(MatcherConst<'a>);

impl fmt::Display for Matcher<'_> {
    fn fmt<W: fmt::Write>(&self, f: &mut fmt::Formatter<W>) -> fmt::Result {
        let kind = match self.0.kind {
            MatcherKindConst::Exact => "exact",
            MatcherKindConst::Regex => "pattern",
        };
        write!(f, "{kind} {} ", Hex(self.0.data))?;
        match self.0.children {
            Some(n) => write!(f, "{n}"),
            None => f.write_str("none"),
        }
    }
}

fn fallback(heap: Global, text: &[u8]) -> anyhow::Result<String> {
    let read = parse_fallback(text);
    said(
        heap,
        Answer(read.map(|f| Capture(f.max_capture)).map_err(Fault)),
    )
}

// What was written into the front of a buffer, or why nothing was.
fn written<E>(heap: Global, buffer: &[u8], size: Result<usize, E>) -> anyhow::Result<String>
where
    Fault<E>: fmt::Display,
    E: Drop,
{
    let front = size.map(|n| Hex(buffer.get(..n).unwrap_or(&[])));
    said(heap, Answer(front.map_err(Fault)))
}

fn code(heap: Global, template: &[u8]) -> anyhow::Result<String> {
    let mut buffer = [0; CODE_LIMIT];
    let size = encode(template, &mut buffer);
    written(heap, &buffer, size)
}

fn decode(heap: Global, bytes: &[u8]) -> anyhow::Result<String> {
    let mut buffer = [0; TEMPLATE_LIMIT];
    let size = write_back(bytes, &mut buffer);
    written(heap, &buffer, size)
}
