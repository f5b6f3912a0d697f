ghost use Rattle.std.specs.Prelude.{◌≡◌};
ghost use Rattle.controls.specs.Parts.{reading};
ghost use Rattle.grammar.specs.Paths.{index_at};
ghost use Rattle.controls.specs.Views.{path_index};

use crate::numbers::parse_i32;
use crate::part::Part;
use grammar::{ChildIndex, STEP_ALLOWANCE};
use refusal::{FormatterError, ParseError};

// A number that may stand in a path.
pub(crate) fn parse_index(part: Part) -> Result<ChildIndex, ParseError<FormatterError>>
    ensures { result ≡ reading index_at part.entry }
{
    match parse_i32(part)? {
        i32::MAX => Err(part.fault(FormatterError::InvalidNumber)),
        number => Ok(ChildIndex(number)),
    }
}

// The index that ends a path, behind its steps.
#[tactic(auto, using(crate::proofs::PathSteps::path_stops, crate::proofs::PathSteps::path_ends, crate::proofs::PathSteps::path_goes))]
pub(crate) fn parse_path(part: Part) -> Result<ChildIndex, ParseError<FormatterError>>
    ensures { result ≡ reading path_index part.entry }
{
    let [b'#', ..] = part.text else {
        return Err(part.fault(FormatterError::MissingHash));
    };
    let numbers = part.behind(1);
    let mut rest = numbers;
    for _ in 0..STEP_ALLOWANCE + 1 {
        let (front, behind) = rest.split(b':');
        let index = parse_index(front)?;
        let Some(next) = behind else {
            return Ok(index);
        };
        rest = next;
    }
    Err(numbers.fault(FormatterError::TooManyChildren))
}
