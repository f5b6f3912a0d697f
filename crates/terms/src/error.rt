ghost use Rattle.refusal.specs.declared.error.Layer.TheVariants.{Print};
ghost use Rattle.terms.specs.Refusals.{print_number, print_name};

use refusal::{Layer, Refusal, Told};

// What is wrong with what the print is given.
#[derive(Clone, Copy, Debug, PartialEq, Eq)]
pub enum PrintError {
    BadTerm,
}

impl Refusal for PrintError {
    ghost numbered = { print_number };

    ghost named = { print_name };

    ghost within = { λ _. Print };

    fn told(&self) -> Told {
        match *self {
            PrintError::BadTerm => Told::new(23, "BadTerm", Layer::Print),
        }
    }
}

#[cfg(test)]
mod tests {
    use super::*;

    #[test]
    fn bad_term(rt: HostRuntime) {
        assert_eq!(rt; PrintError::BadTerm.number(), 23);
        assert_eq!(rt; PrintError::BadTerm.name(), "BadTerm");
        assert_eq!(rt; PrintError::BadTerm.layer().name(), "print");
    }
}
