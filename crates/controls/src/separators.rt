ghost use Rattle.std.specs.Prelude.{◌≡◌};
ghost use Rattle.controls.specs.Parts.{reading};
ghost use Rattle.grammar.specs.Controls.{separators_at};
ghost use Rattle.controls.specs.Views.{seen_parts};

use crate::part::Part;
use refusal::{FormatterError, ParseError, PartingMark};

// The separators of a repeat as typed.
#[derive(Clone, Copy, Default)]
pub(crate) struct Separators<'a> {
    pub(crate) left: &'a [u8],
    pub(crate) middle: &'a [u8],
    pub(crate) right: &'a [u8],
}

// One separator is the middle one; three are left, middle and right.
pub(crate) fn part_separators<'a>(
    part: Part<'a>,
) -> Result<Separators<'a>, ParseError<FormatterError>>
    ensures { seen_parts result ≡ reading separators_at part.entry }
{
    let (left, behind) = part.split_unpaired(b'|');
    let Some(second) = behind else {
        return Ok(Separators {
            middle: part.text,
            ..Separators::default()
        });
    };
    let (middle, behind) = second.split_unpaired(b'|');
    let Some(third) = behind else {
        return Err(second.fault(FormatterError::TooManyControl(PartingMark::Bar)));
    };
    if let (_, Some(fourth)) = third.split_unpaired(b'|') {
        return Err(fourth.fault(FormatterError::TooManyControl(PartingMark::Bar)));
    }
    Ok(Separators {
        left: left.text,
        middle: middle.text,
        right: third.text,
    })
}
