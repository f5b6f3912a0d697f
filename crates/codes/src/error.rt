ghost use Rattle.std.specs.Prelude.{◌≡◌};
ghost use Rattle.codes.specs.Faults.{code_number, code_name, encode_number, encode_name, encode_layer, of_formatter};
ghost use Rattle.refusal.specs.declared.error.Layer.TheVariants.{Book};

use refusal::{DeepError, Layer, ParseError, Refusal, Told};

// Why a code is not made, not read, or not written. No part of a text is at fault, so there is no place.
#[derive(Clone, Copy, Debug, PartialEq, Eq)]
pub enum CodeError {
    CodeTooLong,
    NoCode,
    BufferTooShort,
}

impl Refusal for CodeError {
    ghost numbered = { code_number };

    ghost named = { code_name };

    ghost within = { λ _. Book };

    fn told(&self) -> Told {
        match *self {
            CodeError::CodeTooLong => Told::new(20, "CodeTooLong", Layer::Book),
            CodeError::NoCode => Told::new(21, "NoCode", Layer::Book),
            CodeError::BufferTooShort => Told::new(22, "BufferTooShort", Layer::Book),
        }
    }
}

// Why a template has no code: it is at fault, its code is too long, or the buffer is too short for it.
#[derive(Clone, Copy, Debug, PartialEq, Eq)]
pub enum EncodeError {
    Formatter(ParseError<DeepError>),
    Code(CodeError),
}

impl Refusal for EncodeError {
    ghost numbered = { encode_number };

    ghost named = { encode_name };

    ghost within = { encode_layer };

    fn told(&self) -> Told {
        match *self {
            EncodeError::Formatter(e) => e.told(),
            EncodeError::Code(e) => e.told(),
        }
    }
}

impl From<ParseError<DeepError>> for EncodeError {
    ghost from_gives = { λ e r. r ≡ of_formatter e };

    fn from(e: ParseError<DeepError>) -> EncodeError {
        EncodeError::Formatter(e)
    }
}
