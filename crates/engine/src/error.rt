ghost use Rattle.refusal.specs.declared.error.Layer.{Layer};
ghost use Rattle.refusal.specs.declared.error.Layer.TheVariants.{Pattern};
ghost use Rattle.engine.specs.Refusals.{pattern_number, pattern_name};

use refusal::{Layer, Refusal, Told};

// Why an engine refuses.
#[derive(Clone, Copy, Debug, PartialEq, Eq)]
pub enum PatternError {
    // the text is no pattern
    InvalidPattern,
    // as many patterns are held as can be
    EngineFull,
    // the number holds no pattern
    NothingHeld,
}

impl Refusal for PatternError {
    ghost numbered = { pattern_number };

    ghost named = { pattern_name };

    ghost within = { λ _. Pattern };

    fn told(&self) -> Told {
        match *self {
            PatternError::InvalidPattern => Told::new(12, "InvalidPattern", Layer::Pattern),
            PatternError::EngineFull => Told::new(33, "EngineFull", Layer::Pattern),
            PatternError::NothingHeld => Told::new(38, "NothingHeld", Layer::Pattern),
        }
    }
}
