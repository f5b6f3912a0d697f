ghost use Rattle.std.specs.Prelude.{◌≡◌};
ghost use Rattle.displays.specs.declared.error.ConversionError.TheVariants.{Definition, Regex, FormatterParseError};
ghost use Rattle.displays.specs.Refusals.{conversion_number, conversion_name, conversion_layer};

use engine::PatternError;
use refusal::{DeepError, EitherError, Layer, ParseError, Refusal, Told};

// Why a definition is refused with an engine.
#[derive(Clone, Copy, Debug, PartialEq, Eq)]
pub enum ConversionError {
    // its matcher or its template, separators unread
    Definition(ParseError<EitherError>),
    // its pattern
    Regex(PatternError),
    // a separator
    FormatterParseError(ParseError<DeepError>),
    // an exact matcher with a capture in a separator
    FormatterExpectsRegex,
    // a capture that the pattern has no group for
    RegexNotEnoughCaptures,
}

impl Refusal for ConversionError {
    ghost numbered = { conversion_number };

    ghost named = { conversion_name };

    ghost within = { conversion_layer };

    fn told(&self) -> Told {
        match *self {
            ConversionError::Definition(e) => e.told(),
            ConversionError::Regex(e) => e.told(),
            ConversionError::FormatterParseError(e) => e.told(),
            ConversionError::FormatterExpectsRegex => Told::new(
                13,
                "FormatterExpectsRegex",
                Layer::Book,
            ),
            ConversionError::RegexNotEnoughCaptures => Told::new(
                14,
                "RegexNotEnoughCaptures",
                Layer::Book,
            ),
        }
    }
}

impl From<ParseError<EitherError>> for ConversionError {
    ghost from_gives = { λ e r. r ≡ Definition e };

    fn from(e: ParseError<EitherError>) -> ConversionError {
        ConversionError::Definition(e)
    }
}

impl From<PatternError> for ConversionError {
    ghost from_gives = { λ e r. r ≡ Regex e };

    fn from(e: PatternError) -> ConversionError {
        ConversionError::Regex(e)
    }
}

impl From<ParseError<DeepError>> for ConversionError {
    ghost from_gives = { λ e r. r ≡ FormatterParseError e };

    fn from(e: ParseError<DeepError>) -> ConversionError {
        ConversionError::FormatterParseError(e)
    }
}
