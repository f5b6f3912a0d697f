ghost use Rattle.refusal.specs.declared.error.Layer.TheVariants.{Print};
ghost use Rattle.lines.specs.Refusals.{line_number, line_name};

use refusal::{Layer, Refusal, Told};

// Why a print ends before its line does.
#[derive(Clone, Copy, Debug, PartialEq, Eq)]
pub enum LineError {
    // the source has no such term
    NoSuchTerm,
    // a child or a step of a path is missing
    MissingChild,
    // visits are nested too deep
    TooDeep,
    // there are too many visits
    TooManyVisits,
    // a byte is due and the buffer is full
    OutputFull,
}

impl Refusal for LineError {
    ghost numbered = { line_number };

    ghost named = { line_name };

    ghost within = { λ _. Print };

    fn told(&self) -> Told {
        match *self {
            LineError::NoSuchTerm => Told::new(34, "NoSuchTerm", Layer::Print),
            LineError::MissingChild => Told::new(35, "MissingChild", Layer::Print),
            LineError::TooDeep => Told::new(36, "TooDeep", Layer::Print),
            LineError::TooManyVisits => Told::new(37, "TooManyVisits", Layer::Print),
            LineError::OutputFull => Told::new(39, "OutputFull", Layer::Print),
        }
    }
}
