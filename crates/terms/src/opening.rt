ghost use Rattle.std.specs.Prelude.{◌≡◌, ◌<◌, ◌≤◌, MatchResult};
ghost use Rattle.terms.specs.Opening.{bad_term};

use crate::error::PrintError;
use refusal::ParseError;

// The answer of a check, where `beginning` of `count` terms stand before the first bad one, which is refused.
pub fn check_beginning(beginning: usize, count: usize) -> Result<(), ParseError<PrintError>>
    ensures { MatchResult result (λ _. count ≤ beginning) (λ e. (beginning < count) × (e ≡ bad_term beginning)) }
{
    if beginning < count {
        return Err(ParseError::new(PrintError::BadTerm, beginning, 0));
    }
    Ok(())
}
