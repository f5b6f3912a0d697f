ghost use Rattle.std.specs.Prelude.{◌≡◌};
ghost use Rattle.formatter.specs.Fallbacks.{fallback_number, fallback_name, fallback_layer, fallback_from};

use refusal::{DeepError, Layer, ParseError, Refusal, Told};

// Why a template cannot stand for every name: it is at fault, or it asks for a capture above 0.
#[derive(Clone, Copy, Debug, PartialEq, Eq)]
pub enum FallbackParseError {
    MaxCaptureTooLarge(u32),
    FormatterParseError(ParseError<DeepError>),
}

impl Refusal for FallbackParseError {
    ghost numbered = { fallback_number };

    ghost named = { fallback_name };

    ghost within = { fallback_layer };

    fn told(&self) -> Told {
        match *self {
            FallbackParseError::MaxCaptureTooLarge(_) => Told::new(
                15,
                "MaxCaptureTooLarge",
                Layer::Book,
            ),
            FallbackParseError::FormatterParseError(e) => e.told(),
        }
    }
}

impl From<ParseError<DeepError>> for FallbackParseError {
    ghost from_gives = { λ e r. r ≡ fallback_from e };

    fn from(e: ParseError<DeepError>) -> FallbackParseError {
        FallbackParseError::FormatterParseError(e)
    }
}
