ghost use Rattle.std.specs.Prelude.{◌≡◌, ◌≤◌, length, Ok};
ghost use Rattle.grammar.specs.Limits.{template_limit};
ghost use Rattle.controls.specs.Views.{shape};
ghost use Rattle.templates.specs.Outputs.{outputs_of};
ghost use Rattle.formatter.specs.Fallbacks.{fallback_read, seen_fallback};
ghost use Rattle.formatter.specs.Views.{in_separator, on_side, in_repeat, in_piece, Short, between_pieces, formatter_read, seen_formatter};
ghost use Rattle.formatter.specs.Reading.{ReadAs, OutputsWalk, whole_reading};
ghost use Rattle.grammar.specs.Deep.{deep_at};

use crate::defns::Formatter;
use crate::error::FallbackParseError;
use crate::halves::halve;
use controls::SubFormatterConst;
use refusal::{DeepError, FormatterError, InSeparator, ParseError, Side};
use templates::{FormatterConst, TEMPLATE_LIMIT, parse_template};

// Room for a separator with its bars halved, as long as the longest template: a reader takes no memory from the heap. The
// greatest capture so far goes through the functions below as a value, and the room beside it as what they write to.
type Scratch = [u8; TEMPLATE_LIMIT];

// Reads a separator as a template, its bars halved, and answers the greatest capture so far.
fn parse_separator(
    typed: &[u8],
    scratch: &mut Scratch,
    most: Option<u32>,
) -> Result<Option<u32>, ParseError<FormatterError>>
    requires { length typed.now ≤ template_limit }
    ensures { result ≡ in_separator most typed.now }
{
    let size = halve(typed, b'|', scratch).unwrap_or(0);
    let read = parse_template(&scratch[0..size])?;
    Ok(most.max(read.max_capture))
}

// The same, with the repeat's number among the pieces and the side on a fault.
fn parse_side(
    piece: usize,
    side: Side,
    typed: &[u8],
    scratch: &mut Scratch,
    most: Option<u32>,
) -> Result<Option<u32>, InSeparator>
    requires { length typed.now ≤ template_limit }
    ensures { result ≡ on_side piece side most typed.now }
{
    parse_separator(typed, scratch, most).map_err(|fault| InSeparator { piece, side, fault })
}

// Reads the separators of a repeat from left to right.
fn parse_sides(
    piece: usize,
    left: &[u8],
    middle: &[u8],
    right: &[u8],
    scratch: &mut Scratch,
    most: Option<u32>,
) -> Result<Option<u32>, ParseError<DeepError>>
    requires left { length left.now ≤ template_limit }
    requires middle { length middle.now ≤ template_limit }
    requires right { length right.now ≤ template_limit }
    ensures { result ≡ in_repeat piece most left.now middle.now right.now }
{
    let after_left = parse_side(piece, Side::Left, left, scratch, most)?;
    let after_middle = parse_side(piece, Side::Middle, middle, scratch, after_left)?;
    let after_right = parse_side(piece, Side::Right, right, scratch, after_middle)?;
    Ok(after_right)
}

// Reads the separators of the piece that is the `number`-th.
fn parse_piece(
    number: usize,
    piece: &SubFormatterConst,
    scratch: &mut Scratch,
    most: Option<u32>,
) -> Result<Option<u32>, ParseError<DeepError>>
    requires { Short piece.now }
    ensures { result ≡ in_piece number most (shape piece.now) }
{
    match *piece {
        SubFormatterConst::Repeat {
            left_sep,
            middle_sep,
            right_sep,
            ..
        } => parse_sides(number, left_sep, middle_sep, right_sep, scratch, most),
        _ => Ok(most),
    }
}

// Reads the separators of all pieces, and answers the greatest capture among the pieces and in the separators.
fn parse_pieces(
    parts: &FormatterConst,
    scratch: &mut Scratch,
) -> Result<Option<u32>, ParseError<DeepError>>
    requires { length parts.now.text.now ≤ template_limit }
    ensures { result ≡ between_pieces parts.now.max_capture (Ok (outputs_of parts.now)) }
{
    let mut greatest = parts.max_capture;
    for (number, piece) in parts.outputs().enumerate() {
        greatest = parse_piece(number, &piece, scratch, greatest)?;
    }
    Ok(greatest)
}

// Reads any bytes as a template with its separators. It is accepted exactly where the grammar and the limits give it a
// reading, which is then its only one.
pub fn parse_formatter<'a>(text: &'a [u8]) -> Result<Formatter<'a>, ParseError<DeepError>>
    ensures exact { seen_formatter result ≡ formatter_read text.now }
    ensures whole { whole_reading result ≡ deep_at text.now }
    ensures reading { ReadAs text.now result }
    ensures walk { OutputsWalk }
{
    let parts = parse_template(text)?;
    let mut scratch = [0; TEMPLATE_LIMIT];
    let max_capture = parse_pieces(&parts, &mut scratch)?;
    Ok(Formatter { parts, max_capture })
}

// Reads any bytes as a template that serves every name: its greatest capture is at most 0, the whole name.
pub fn parse_fallback<'a>(text: &'a [u8]) -> Result<Formatter<'a>, FallbackParseError>
    ensures { seen_fallback result ≡ fallback_read text.now }
{
    let formatter = parse_formatter(text)?;
    match formatter.max_capture {
        None | Some(0) => Ok(formatter),
        Some(n) => Err(FallbackParseError::MaxCaptureTooLarge(n)),
    }
}
