ghost use Rattle.std.specs.Prelude.{◌≡◌};
ghost use Rattle.controls.specs.Parts.{reading};
ghost use Rattle.grammar.specs.Powers.{pair_at, last_field, behind_single, powers_at};
ghost use Rattle.controls.specs.Views.{pair, seen_powers, seen_triple};

use crate::numbers::parse_u32;
use crate::part::Part;
use grammar::BindPowerPair;
use refusal::{FormatterError, ParseError, PartingMark};

// What is typed as `n` or as `n,m`.
#[derive(Clone, Copy)]
pub(crate) enum Powers {
    One(u32),
    Two(BindPowerPair),
}

impl Powers {
    // The powers on both sides, which one number stands for as well.
    pub(crate) fn pair(self) -> BindPowerPair
        ensures { result ≡ pair self }
    {
        match self {
            Powers::One(power) => BindPowerPair::symmetric(power),
            Powers::Two(pair) => pair,
        }
    }
}

// The powers of a repeat: to its left, in its middle and to its right.
#[derive(Clone, Copy, Default)]
pub(crate) struct RepeatPowers {
    pub(crate) left: u32,
    pub(crate) middle: BindPowerPair,
    pub(crate) right: u32,
}

// One power for both sides, or two.
pub(crate) fn parse_pair(part: Part) -> Result<Powers, ParseError<FormatterError>>
    ensures { seen_powers result ≡ reading pair_at part.entry }
{
    let (front, behind) = part.split(b',');
    let left = parse_u32(front)?;
    let Some(second) = behind else {
        return Ok(Powers::One(left));
    };
    let (front, behind) = second.split(b',');
    let right = parse_u32(front)?;
    match behind {
        Some(third) => Err(third.fault(FormatterError::TooManyControl(PartingMark::Comma))),
        None => Ok(Powers::Two(BindPowerPair { left, right })),
    }
}

// The last field of a repeat's powers, which must be one power.
fn parse_last(part: Part) -> Result<u32, ParseError<FormatterError>>
    ensures { result ≡ reading last_field part.entry }
{
    if let (_, Some(behind)) = part.split(b'|') {
        return Err(behind.fault(FormatterError::TooManyControl(PartingMark::Bar)));
    }
    match parse_pair(part)? {
        Powers::One(power) => Ok(power),
        Powers::Two(_) => Err(part.fault(FormatterError::UnexpectedPair)),
    }
}

// The powers of a repeat whose first field is one power.
fn parse_behind(left: u32, part: Part) -> Result<RepeatPowers, ParseError<FormatterError>>
    ensures { seen_triple result ≡ reading (behind_single left) part.entry }
{
    let (front, behind) = part.split(b'|');
    let second = parse_pair(front)?;
    let (middle, right) = match (second, behind) {
        (_, Some(last)) => (second.pair(), parse_last(last)?),
        (Powers::Two(middle), None) => (middle, 0),
        (Powers::One(right), None) => (BindPowerPair::default(), right),
    };
    Ok(RepeatPowers {
        left,
        middle,
        right,
    })
}

// The powers of a repeat behind their first bar: `a`, `a,b`, `a|b`, `a,b|c`, `a|b,c`, `a|b|c` or `a|b,c|d`.
pub(crate) fn parse_triple(part: Part) -> Result<RepeatPowers, ParseError<FormatterError>>
    ensures { seen_triple result ≡ reading powers_at part.entry }
{
    let (front, behind) = part.split(b'|');
    let first = parse_pair(front)?;
    let (left, middle, right) = match (first, behind) {
        (Powers::One(left), Some(rest)) => return parse_behind(left, rest),
        (Powers::Two(middle), Some(last)) => (0, middle, parse_last(last)?),
        (Powers::One(power), None) => (power, first.pair(), power),
        (Powers::Two(middle), None) => (0, middle, 0),
    };
    Ok(RepeatPowers {
        left,
        middle,
        right,
    })
}
