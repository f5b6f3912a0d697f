ghost use Rattle.std.specs.Prelude.{◌≡◌};
ghost use Rattle.kernel.specs.Faults.{layer_of, mark_of, side_of, bare, located, of_formatter, of_separator, of_deep, of_matcher, of_code, of_encode, of_pattern};

use crate::records::Fault;
use codes::{CodeError, EncodeError};
use engine::PatternError;
use refusal::{
    ClosingMark, DeepError, FormatterError, InSeparator, Layer, MatcherError, ParseError,
    PartingMark, Refusal, Side,
};

// The numbers by which C knows what is an enum here; include/fulgavod.h has the same ones.
fn layer_of(layer: Layer) -> u32
    ensures { result ≡ layer_of layer }
{
    match layer {
        Layer::Template => 1,
        Layer::Matcher => 2,
        Layer::Pattern => 3,
        Layer::Book => 4,
        Layer::Print => 5,
    }
}

// The first byte of the mark that a fault names, 0 where it names none.
fn mark_of(kind: FormatterError) -> u8
    ensures { result ≡ mark_of kind }
{
    match kind {
        FormatterError::MissingControl(ClosingMark::Dollar) => b'$',
        FormatterError::MissingControl(ClosingMark::Square) => b']',
        FormatterError::MissingControl(ClosingMark::Round) => b')',
        FormatterError::MissingControl(ClosingMark::Curly) => b'}',
        FormatterError::TooManyControl(PartingMark::Comma) => b',',
        FormatterError::TooManyControl(PartingMark::Bar) => b'|',
        _ => 0,
    }
}

fn side_of(side: Side) -> u32
    ensures { result ≡ side_of side }
{
    match side {
        Side::Left => 1,
        Side::Middle => 2,
        Side::Right => 3,
    }
}

// A refusal that no part of a text is at fault for.
fn bare<R: Refusal>(e: &R) -> Fault
    ensures { result ≡ bare (R.numbered e.now) (R.within e.now) }
{
    Fault {
        number: u32::from(e.number()),
        layer: layer_of(e.layer()),
        ..Fault::default()
    }
}

// A refusal with the part that is at fault.
fn located<K: Refusal>(e: &ParseError<K>) -> Fault
    ensures { result ≡ located (K.numbered e.now.kind) (K.within e.now.kind) e.now.place e.now.length }
{
    Fault {
        place: e.place,
        length: e.length,
        ..bare(e)
    }
}

impl From<ParseError<FormatterError>> for Fault {
    ghost from_gives = { λ e r. r ≡ of_formatter e };

    fn from(e: ParseError<FormatterError>) -> Fault {
        Fault {
            mark: u32::from(mark_of(e.kind)),
            ..located(&e)
        }
    }
}

impl From<InSeparator> for Fault {
    ghost from_gives = { λ e r. r ≡ of_separator e };

    fn from(e: InSeparator) -> Fault {
        Fault {
            side: side_of(e.side),
            piece: e.piece,
            ..Fault::from(e.fault)
        }
    }
}

impl From<ParseError<DeepError>> for Fault {
    ghost from_gives = { λ e r. r ≡ of_deep e };

    fn from(e: ParseError<DeepError>) -> Fault {
        match e.kind {
            DeepError::Formatter(kind) => Fault::from(e.with(kind)),
            DeepError::Separator(inner) => Fault::from(inner),
        }
    }
}

impl From<ParseError<MatcherError>> for Fault {
    ghost from_gives = { λ e r. r ≡ of_matcher e };

    fn from(e: ParseError<MatcherError>) -> Fault {
        located(&e)
    }
}

impl From<CodeError> for Fault {
    ghost from_gives = { λ e r. r ≡ of_code e };

    fn from(e: CodeError) -> Fault {
        bare(&e)
    }
}

impl From<EncodeError> for Fault {
    ghost from_gives = { λ e r. r ≡ of_encode e };

    fn from(e: EncodeError) -> Fault {
        match e {
            EncodeError::Formatter(inner) => Fault::from(inner),
            EncodeError::Code(inner) => Fault::from(inner),
        }
    }
}

impl From<PatternError> for Fault {
    ghost from_gives = { λ e r. r ≡ of_pattern e };

    fn from(e: PatternError) -> Fault {
        bare(&e)
    }
}
