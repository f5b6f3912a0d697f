ghost use Rattle.std.specs.Prelude.{◌≡◌};
ghost use Rattle.controls.specs.Parts.{reading};
ghost use Rattle.grammar.specs.Controls.{front_at, repeat_at};
ghost use Rattle.controls.specs.Views.{seen_head, seen_shape};

use crate::defns_const::SubFormatterConst;
use crate::part::Part;
use crate::powers::{RepeatPowers, parse_triple};
use crate::ranges::{ChildRange, parse_range};
use crate::separators::{Separators, part_separators};
use refusal::{FormatterError, ParseError};

// The front of a repeat: its range, and behind a bar its powers.
fn parse_head<'a>(
    part: Part<'a>,
) -> Result<(ChildRange<'a>, RepeatPowers), ParseError<FormatterError>>
    ensures { seen_head result ≡ reading front_at part.entry }
{
    let (range, typed) = part.split(b'|');
    let children = parse_range(range)?;
    let powers = match typed {
        Some(typed) => parse_triple(typed)?,
        None => RepeatPowers::default(),
    };
    Ok((children, powers))
}

// A repeat, from what stands between `$(` and `)$`: its front, and behind `$` its separators.
pub(crate) fn parse_repeat<'a>(
    part: Part<'a>,
) -> Result<SubFormatterConst<'a>, ParseError<FormatterError>>
    ensures { seen_shape result ≡ reading repeat_at part.entry }
{
    let (head, typed) = part.split(b'$');
    let (children, powers) = parse_head(head)?;
    let separators = match typed {
        Some(typed) => part_separators(typed)?,
        None => Separators::default(),
    };
    Ok(SubFormatterConst::Repeat {
        path: children.path,
        from: children.from,
        to: children.to,
        left: powers.left,
        middle: powers.middle,
        right: powers.right,
        left_sep: separators.left,
        middle_sep: separators.middle,
        right_sep: separators.right,
    })
}
