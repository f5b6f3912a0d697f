ghost use Rattle.std.specs.Prelude.{◌≡◌};
ghost use Rattle.controls.specs.Parts.{reading};
ghost use Rattle.grammar.specs.Controls.{range_at};
ghost use Rattle.controls.specs.Views.{seen_range};

use crate::part::Part;
use crate::paths::{parse_index, parse_path};
use grammar::ChildIndex;
use refusal::{FormatterError, ParseError};

// The children that a repeat goes over: a path with the first index, and the last index.
#[derive(Clone, Copy)]
pub(crate) struct ChildRange<'a> {
    pub(crate) path: &'a [u8],
    pub(crate) from: ChildIndex,
    pub(crate) to: ChildIndex,
}

// A path with the first index, and the last index behind `..`.
pub(crate) fn parse_range<'a>(part: Part<'a>) -> Result<ChildRange<'a>, ParseError<FormatterError>>
    ensures { seen_range result ≡ reading range_at part.entry }
{
    let (path, last) = part
        .cut(b'.', b'.')
        .ok_or(part.fault(FormatterError::MissingRange))?;
    let from = parse_path(path)?;
    let to = parse_index(last)?;
    Ok(ChildRange {
        path: path.text,
        from,
        to,
    })
}
