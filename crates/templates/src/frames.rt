ghost use Rattle.std.specs.Prelude.{◌≡◌, ◌+◌, ◌≤◌, length, drop, IfOk};
ghost use Rattle.grammar.specs.Templates.{prefix_at, suffix_at};

use crate::scan::{first_byte, last_byte};
use controls::parse_power;
use refusal::{ClosingMark, FormatterError, ParseError};

// The power of the prefix, and how many bytes it has.
pub(crate) fn parse_prefix(text: &[u8]) -> Result<(u32, usize), ParseError<FormatterError>>
    ensures within { IfOk result (λ p. p.1 ≤ length text.now) }
    ensures value { result ≡ prefix_at text.now }
{
    let [b'$', rest @ ..] = text else {
        return Ok((0, 0));
    };
    let Some(at) = first_byte(rest, b'$') else {
        let kind = FormatterError::MissingControl(ClosingMark::Dollar);
        return Err(ParseError::new(kind, 1, rest.len()));
    };
    let left = parse_power(text, 1, at + 1)?;
    Ok((left, at + 2))
}

// The power of the suffix of what stands from `from` on, and how many bytes stand before the suffix.
pub(crate) fn parse_suffix(
    text: &[u8],
    from: usize,
) -> Result<(u32, usize), ParseError<FormatterError>>
    requires { from ≤ length text.now }
    ensures within { IfOk result (λ p. from + p.1 ≤ length text.now) }
    ensures value { result ≡ suffix_at from (drop from text.now) }
{
    let [rest @ .., b'$'] = &text[from..] else {
        return Ok((0, text.len() - from));
    };
    let Some(at) = last_byte(rest, b'$') else {
        let kind = FormatterError::MissingControl(ClosingMark::Dollar);
        return Err(ParseError::new(kind, from, rest.len()));
    };
    let right = parse_power(text, from + (at + 1), from + rest.len())?;
    Ok((right, at))
}
