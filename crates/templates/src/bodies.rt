ghost use Rattle.std.specs.Prelude.{◌≡◌, ◌+◌, ◌<◌, ◌≤◌, length, drop, IfOk, MatchOption};
ghost use Rattle.grammar.specs.Limits.{piece_allowance};
ghost use Rattle.grammar.specs.Results.{on_ok};
ghost use Rattle.grammar.specs.Templates.{body_at, formatter_at, leading, template_at};
ghost use Rattle.templates.specs.Views.{seen_piece, greater_of, one_more, totals, summed, seen_formatter};

use crate::defns_const::FormatterConst;
use crate::frames::{parse_prefix, parse_suffix};
use controls::{SubFormatterConst, parse_control, unpaired};
use grammar::{BindPowerPair, PIECE_ALLOWANCE, TEMPLATE_LIMIT};
use refusal::{FormatterError, ParseError};

// A place goes with the whole text, and not with the rest of it, since a fault is placed from the beginning of the template. `Outputs` holds
// the two for those who want the pieces; here they are what the definitions of the grammar take.

// The control that stands at `at` in the text, if it does not end there, and its length.
fn parse_leading<'a>(
    text: &'a [u8],
    at: usize,
) -> Result<Option<(SubFormatterConst<'a>, usize)>, ParseError<FormatterError>>
    requires { at ≤ length text.now }
    ensures within { IfOk result (λ o. MatchOption o (at ≡ length text.now) (λ p. at + p.1 ≤ length text.now)) }
    ensures more { IfOk result (λ o. MatchOption o (0 ≤ 0) (λ p. 0 < p.1)) }
    ensures value { seen_piece result ≡ leading at (drop at text.now) }
{
    if at == text.len() {
        return Ok(None);
    }
    let (piece, used) = parse_control(text, at + 1)?;
    Ok(Some((piece, used + 1)))
}

// The greater of the greatest capture so far and the piece's own.
fn greater(most: Option<u32>, piece: &SubFormatterConst) -> Option<u32>
    ensures { result ≡ greater_of most piece.now }
{
    match *piece {
        SubFormatterConst::Capture(number) => most.max(Some(number)),
        _ => most,
    }
}

// One piece more, which has `size` bytes from `place` on.
fn one_more(outputs: usize, place: usize, size: usize) -> Result<usize, ParseError<FormatterError>>
    requires { outputs ≤ piece_allowance }
    ensures { result ≡ one_more outputs place size }
{
    if outputs == PIECE_ALLOWANCE {
        return Err(ParseError::new(FormatterError::TooManyPieces, place, size));
    }
    Ok(outputs + 1)
}

// How many pieces stand in the text from `from` on, and the greatest capture among them.
fn parse_body(text: &[u8], from: usize) -> Result<(usize, Option<u32>), ParseError<FormatterError>>
    requires { from ≤ length text.now }
    ensures { result ≡ totals (body_at piece_allowance from (drop from text.now)) }
{
    let mut at = from;
    let mut outputs = 0;
    let mut most = None;
    // A text and the control behind it in one turn: the control is read before the text counts, and only once.
    loop {
        let words = unpaired(&text[at..], b'$');
        let control = parse_leading(text, at + words)?;
        if words > 0 {
            outputs = one_more(outputs, at, words)?;
        }
        let Some((piece, size)) = control else {
            return Ok((outputs, most));
        };
        outputs = one_more(outputs, at + words, size)?;
        most = greater(most, &piece);
        at += words + size;
    }
}

// A template of at most the allowed length.
pub(crate) fn read_template<'a>(
    text: &'a [u8],
) -> Result<FormatterConst<'a>, ParseError<FormatterError>>
    ensures { seen_formatter result ≡ on_ok (template_at text.now) (summed text.now) }
{
    let (left, start) = parse_prefix(text)?;
    let (right, size) = parse_suffix(text, start)?;
    let front = &text[0..start + size];
    let (outputs, max_capture) = parse_body(front, start)?;
    Ok(FormatterConst {
        bind_power: BindPowerPair { left, right },
        text: front,
        start,
        outputs,
        max_capture,
    })
}

// Reads any bytes as a template, its separators unread.
pub fn parse_template<'a>(text: &'a [u8]) -> Result<FormatterConst<'a>, ParseError<FormatterError>>
    ensures { seen_formatter result ≡ on_ok (formatter_at text.now) (summed text.now) }
{
    if text.len() > TEMPLATE_LIMIT {
        return Err(ParseError::new(FormatterError::TemplateTooLong, 0, 0));
    }
    read_template(text)
}
