ghost use Rattle.std.specs.Prelude.{◌≡◌, ◌+◌, ◌-◌, ◌^◌, ◌<◌, ◌≤◌, length, take, drop, IfOk};
ghost use Rattle.controls.specs.Parts.{reading};
ghost use Rattle.grammar.specs.Numbers.{digits_from, number_at, power_at};

use crate::part::Part;
use refusal::{FormatterError, ParseError};

// The number that the digits write, none of whose fronts passes `limit`; `whole` is the number with its sign.
fn digits(whole: Part, digits: Part, limit: u32) -> Result<u32, ParseError<FormatterError>>
    ensures within { IfOk result (λ n. n ≤ limit) }
    ensures value { result ≡ digits_from limit whole.entry.place (length whole.entry.text.now) 0 digits.entry.place digits.entry.text.now }
{
    let mut value = 0;
    let mut rest = digits;
    while let [digit, ..] = rest.text {
        if !digit.is_ascii_digit() {
            return Err(rest.fault(FormatterError::InvalidNumber));
        }
        let more = u64::from(value) * 10 + u64::from(*digit - b'0');
        value = match u32::try_from(more) {
            Ok(n) if n <= limit => n,
            _ => return Err(whole.fault(FormatterError::NumberOutOfRange)),
        };
        rest = rest.behind(1);
    }
    Ok(value)
}

// The signed number of 32 bits that the part writes.
pub(crate) fn parse_i32(part: Part) -> Result<i32, ParseError<FormatterError>>
    ensures { result ≡ reading number_at part.entry }
{
    match part.text {
        [b'0'] => Ok(0),
        [] | [b'-'] | [b'0', ..] => Err(part.fault(FormatterError::InvalidNumber)),
        [b'-', b'0', ..] => Err(part.behind(1).fault(FormatterError::InvalidNumber)),
        [b'-', ..] => {
            let size = digits(part, part.behind(1), i32::MIN.unsigned_abs())?;
            // within the limit, so that `try_from` would have nothing to refuse
            Ok((0 - i64::from(size)) as i32)
        }
        _ => {
            let size = digits(part, part, i32::MAX.unsigned_abs())?;
            Ok(size as i32)
        }
    }
}

// The power that the part writes: a negative number counts down from 4294967296.
pub(crate) fn parse_u32(part: Part) -> Result<u32, ParseError<FormatterError>>
    ensures { result ≡ reading power_at part.entry }
{
    let value = parse_i32(part)?;
    Ok(value.cast_unsigned())
}

// The power that stands in the template from `from` up to `to`.
pub fn parse_power(
    template: &[u8],
    from: usize,
    to: usize,
) -> Result<u32, ParseError<FormatterError>>
    ensures { result ≡ power_at from (take (to - from) (drop from template.now)) }
{
    let end = to.min(template.len());
    let text = template.get(from..end).unwrap_or_default();
    parse_u32(Part { text, place: from })
}
