ghost use Rattle.register.specs.Refusals.{book_number, book_name, book_layer};

use codes::CodeError;
use displays::ConversionError;
use formatter::FallbackParseError;
use refusal::{Layer, MatcherError, ParseError, Refusal, Told};

// Why a book refuses.
#[derive(Clone, Copy, Debug, PartialEq, Eq)]
pub enum BookError {
    // the definition itself is at fault
    Definition(ConversionError),
    // the matcher that names a definition is at fault
    Matcher(ParseError<MatcherError>),
    // the template cannot be the fallback
    Fallback(FallbackParseError),
    // the code is too long, or the buffer too short
    Code(CodeError),
    // an equal matcher stands
    AlreadyStands,
    // as many definitions stand as can be
    BookFull,
    // no equal matcher stands
    NoneStands,
}

impl Refusal for BookError {
    ghost numbered = { book_number };

    ghost named = { book_name };

    ghost within = { book_layer };

    fn told(&self) -> Told {
        match *self {
            BookError::Definition(e) => e.told(),
            BookError::Matcher(e) => e.told(),
            BookError::Fallback(e) => e.told(),
            BookError::Code(e) => e.told(),
            BookError::AlreadyStands => Told::new(31, "AlreadyStands", Layer::Book),
            BookError::BookFull => Told::new(30, "BookFull", Layer::Book),
            BookError::NoneStands => Told::new(32, "NoneStands", Layer::Book),
        }
    }
}
