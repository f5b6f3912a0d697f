use crate::parted::write_parted;
use displays::{ConversionError, check_definition};
use engine::{PatternEngine, PatternError, Span, Spans};
use plain::{PlainEngine, PlainMatch};
use std::fmt;

// A definition, checked with a plain engine that holds nothing. What is prepared is given back.
pub fn display(matcher: &[u8], template: &[u8]) -> Result<(), ConversionError> {
    let mut engine = PlainEngine::new();
    if let Some(ticket) = check_definition(&mut engine, matcher, template)? {
        let _ = engine.give_back(ticket);
    }
    Ok(())
}

// The part of a name that a group took, `~` for none.
#[derive(Clone, Copy)]
struct Part(Option<Span>);

impl fmt::Display for Part {
    fn fmt<W: fmt::Write>(&self, f: &mut fmt::Formatter<W>) -> fmt::Result {
        match self.0 {
            Some(Span { from, to }) => write!(f, "{from}-{to}"),
            None => f.write_str("~"),
        }
    }
}

// The match of a pattern with so many groups, if there is one.
#[derive(Drop)]
pub struct Found<M> {
    groups: usize,
    spans: Option<M>,
}

impl<M: Spans> fmt::Display for Found<M> {
    fn fmt<W: fmt::Write>(&self, f: &mut fmt::Formatter<W>) -> fmt::Result {
        let groups = self.groups;
        match &self.spans {
            Some(spans) => {
                write!(f, "yes {groups} ")?;
                write_parted(f, ',', (0..groups).map(|k| Part(spans.at(k))))
            }
            None => write!(f, "no {groups}"),
        }
    }
}

// The match of a pattern with a name, in the plain engine.
pub fn matching(text: &[u8], name: &[u8]) -> Result<Found<PlainMatch>, PatternError> {
    let mut engine = PlainEngine::new();
    let ticket = engine.prepare(text)?;
    let groups = engine.count(ticket.number()).unwrap_or(0);
    let spans = engine.matched(ticket.number(), name);
    let _ = engine.give_back(ticket);
    Ok(Found {
        groups,
        spans: spans?,
    })
}
