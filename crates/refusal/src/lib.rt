// The refusals of the readers: what is wrong, by number, name and layer, and which part of the text it is.
#![tactic(auto)]

mod error;

pub use error::{
    ClosingMark, DeepError, EitherError, FormatterError, InSeparator, Layer, MatcherError,
    ParseError, PartingMark, Refusal, Side, Told,
};
