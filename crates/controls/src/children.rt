ghost use Rattle.std.specs.Prelude.{◌≡◌, ℕ};
ghost use Rattle.controls.specs.Parts.{reading, IsSplit};
ghost use Rattle.grammar.specs.Controls.{child_powers, child_at};
ghost use Rattle.controls.specs.Views.{seen_shape};

use crate::defns_const::SubFormatterConst;
use crate::part::Part;
use crate::paths::parse_path;
use crate::powers::parse_pair;
use grammar::BindPowerPair;
use refusal::{FormatterError, ParseError};

// The powers typed behind a child's path, that is behind its first bar: none, one for both sides, or two.
fn parse_child_powers(behind: Option<Part>) -> Result<BindPowerPair, ParseError<FormatterError>>
    ensures { (whole front : Part) (bar : ℕ) → IsSplit whole bar (front, behind.entry) → result ≡ reading child_powers whole bar }
{
    match behind {
        Some(typed) => Ok(parse_pair(typed)?.pair()),
        None => Ok(BindPowerPair::default()),
    }
}

// A child, from what stands between `$[` and `]$`: its path, and behind a bar no powers, one for both sides, or two.
pub(crate) fn parse_single<'a>(
    part: Part<'a>,
) -> Result<SubFormatterConst<'a>, ParseError<FormatterError>>
    ensures { seen_shape result ≡ reading child_at part.entry }
{
    let (path, powers) = part.split(b'|');
    let index = parse_path(path)?;
    let bind_power = parse_child_powers(powers)?;
    Ok(SubFormatterConst::Single {
        path: path.text,
        index,
        bind_power,
    })
}
