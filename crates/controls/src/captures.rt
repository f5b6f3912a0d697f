ghost use Rattle.std.specs.Prelude.{◌≡◌};
ghost use Rattle.controls.specs.Parts.{reading};
ghost use Rattle.grammar.specs.Controls.{capture_at};
ghost use Rattle.controls.specs.Views.{seen_shape};

use crate::defns_const::SubFormatterConst;
use crate::numbers::parse_i32;
use crate::part::Part;
use refusal::{FormatterError, ParseError};

// A capture, from what stands between `${` and `}$`.
pub(crate) fn parse_capture<'a>(
    part: Part<'a>,
) -> Result<SubFormatterConst<'a>, ParseError<FormatterError>>
    ensures { seen_shape result ≡ reading capture_at part.entry }
{
    // a match, since no proof is made of a `map` to a piece, which names a lifetime
    match u32::try_from(parse_i32(part)?) {
        Ok(number) => Ok(SubFormatterConst::Capture(number)),
        Err(_) => Err(part.fault(FormatterError::CaptureOverflow)),
    }
}
