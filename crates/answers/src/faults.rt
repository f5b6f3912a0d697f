use crate::hex::Hex;
use codes::{CodeError, EncodeError};
use displays::ConversionError;
use engine::PatternError;
use formatter::FallbackParseError;
use refusal::{DeepError, EitherError, FormatterError, MatcherError, ParseError, Refusal};
use std::fmt;
use terms::PrintError;

// A refusal in the words of the protocol.
#[derive(Clone, Copy)]
pub struct Fault<E>(pub E);

// `NUMBER PLACE LENGTH`.
fn write_part<W: fmt::Write, K: Refusal>(
    f: &mut fmt::Formatter<W>,
    fault: &ParseError<K>,
) -> fmt::Result {
    let ParseError { place, length, .. } = *fault;
    write!(f, "{} {place} {length}", fault.number())
}

// The mark that a fault names, or none; here its text, for C its first byte, in a report a line about it.
fn mark(kind: FormatterError) -> &'static str {
    match kind {
        FormatterError::MissingControl(mark) => mark.text(),
        FormatterError::TooManyControl(mark) => mark.text(),
        _ => "",
    }
}

impl fmt::Display for Fault<ParseError<FormatterError>> {
    fn fmt<W: fmt::Write>(&self, f: &mut fmt::Formatter<W>) -> fmt::Result {
        write_part(f, &self.0)?;
        write!(f, " {}", Hex(mark(self.0.kind).as_bytes()))
    }
}

impl fmt::Display for Fault<ParseError<MatcherError>> {
    fn fmt<W: fmt::Write>(&self, f: &mut fmt::Formatter<W>) -> fmt::Result {
        write_part(f, &self.0)
    }
}

impl fmt::Display for Fault<ParseError<PrintError>> {
    fn fmt<W: fmt::Write>(&self, f: &mut fmt::Formatter<W>) -> fmt::Result {
        write_part(f, &self.0)
    }
}

impl fmt::Display for Fault<ParseError<DeepError>> {
    fn fmt<W: fmt::Write>(&self, f: &mut fmt::Formatter<W>) -> fmt::Result {
        match self.0.kind {
            DeepError::Formatter(kind) => Fault(self.0.with(kind)).fmt(f),
            DeepError::Separator(inner) => {
                let piece = inner.piece;
                let side = inner.side;
                write!(f, "separator {piece} {side} {}", Fault(inner.fault))
            }
        }
    }
}

impl fmt::Display for Fault<ParseError<EitherError>> {
    fn fmt<W: fmt::Write>(&self, f: &mut fmt::Formatter<W>) -> fmt::Result {
        match self.0.kind {
            EitherError::Formatter(kind) => write!(f, "formatter {}", Fault(self.0.with(kind))),
            EitherError::Matcher(kind) => write!(f, "matcher {} -", Fault(self.0.with(kind))),
            EitherError::InvalidCapture => {
                f.write_str("joint ")?;
                write_part(f, &self.0)?;
                f.write_str(" -")
            }
        }
    }
}

impl fmt::Display for Fault<FallbackParseError> {
    fn fmt<W: fmt::Write>(&self, f: &mut fmt::Formatter<W>) -> fmt::Result {
        match self.0 {
            FallbackParseError::MaxCaptureTooLarge(n) => write!(f, "{} {n}", self.0.number()),
            FallbackParseError::FormatterParseError(e) => Fault(e).fmt(f),
        }
    }
}

impl fmt::Display for Fault<CodeError> {
    fn fmt<W: fmt::Write>(&self, f: &mut fmt::Formatter<W>) -> fmt::Result {
        write!(f, "{} 0 0 -", self.0.number())
    }
}

impl fmt::Display for Fault<EncodeError> {
    fn fmt<W: fmt::Write>(&self, f: &mut fmt::Formatter<W>) -> fmt::Result {
        match self.0 {
            EncodeError::Formatter(e) => Fault(e).fmt(f),
            EncodeError::Code(e) => Fault(e).fmt(f),
        }
    }
}

impl fmt::Display for Fault<PatternError> {
    fn fmt<W: fmt::Write>(&self, f: &mut fmt::Formatter<W>) -> fmt::Result {
        write!(f, "{}", self.0.number())
    }
}

impl fmt::Display for Fault<ConversionError> {
    fn fmt<W: fmt::Write>(&self, f: &mut fmt::Formatter<W>) -> fmt::Result {
        match self.0 {
            ConversionError::Definition(e) => Fault(e).fmt(f),
            ConversionError::FormatterParseError(e) => Fault(e).fmt(f),
            other => write!(f, "{} {}", other.layer(), other.number()),
        }
    }
}
