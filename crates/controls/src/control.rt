ghost use Rattle.std.specs.Prelude.{◌≡◌, ℕ, ◌+◌, ◌≤◌, List, length, drop, IfOk, Result};
ghost use Rattle.grammar.specs.Controls.{closed_by, control_at};
ghost use Rattle.controls.specs.Parts.{reading};
ghost use Rattle.controls.specs.Views.{seen_control, Reads};

use crate::captures::parse_capture;
use crate::children::parse_single;
use crate::defns_const::SubFormatterConst;
use crate::part::Part;
use crate::repeats::parse_repeat;
use refusal::{ClosingMark, FormatterError, ParseError};

// A control up to the mark that closes it: what `parse` reads of what stands before the mark, and how many bytes the
// control has from its bracket on.
fn close<'a, F: Fn(Part<'a>) -> Result<SubFormatterConst<'a>, ParseError<FormatterError>>>(
    part: Part<'a>,
    byte: u8,
    mark: ClosingMark,
    parse: F,
) -> Result<(SubFormatterConst<'a>, usize), ParseError<FormatterError>>
    requires { F.IsAlwaysCallable parse }
    ensures within { IfOk result (λ p. p.1 ≤ length part.entry.text.now + 1) }
    ensures same { (f : _) → Reads (F.post parse) f → seen_control result ≡ reading (closed_by byte mark f) part.entry }
{
    let (inside, _) = part
        .cut(byte, b'$')
        .ok_or(part.fault(FormatterError::MissingControl(mark)))?;
    let piece = parse(inside)?;
    Ok((piece, inside.text.len() + 3))
}

// The control that stands in the template from its bracket, at `from`, on: the piece, and how many bytes it has with its marks.
pub fn parse_control<'a>(
    template: &'a [u8],
    from: usize,
) -> Result<(SubFormatterConst<'a>, usize), ParseError<FormatterError>>
    ensures within { IfOk result (λ p. from + p.1 ≤ length template.now) }
    ensures same { seen_control result ≡ control_at from (drop from template.now) }
{
    let text = template.get(from..).unwrap_or_default();
    let whole = Part { text, place: from };
    match text {
        [b'[', ..] => close(whole.behind(1), b']', ClosingMark::Square, parse_single),
        [b'(', ..] => close(whole.behind(1), b')', ClosingMark::Round, parse_repeat),
        [b'{', ..] => close(whole.behind(1), b'}', ClosingMark::Curly, parse_capture),
        _ => Err(whole.fault(FormatterError::IncorrectControl)),
    }
}
