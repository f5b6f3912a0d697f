ghost use Rattle.std.specs.List.{AllByRecursion};
ghost use Rattle.std.specs.Prelude.{[], ◌∷◌};
ghost use Rattle.codes.specs.Code.{word as word_of};
ghost use Rattle.pen.specs.Pen.{Wrote};
ghost use Rattle.encode.specs.Shapes.{plain_code, codes_by, framed, separator_code, separators_code};
ghost use Rattle.encode.specs.Walks.{Pathed, Legible};
ghost use Rattle.templates.specs.Outputs.{outputs_of};

use crate::commands::command;
use crate::pieces::plain_pieces;
use codes::Opcode;
use formatter::halve;
use grammar::{BindPowerPair, TEMPLATE_LIMIT};
use pen::{Full, Pen};
use templates::{FormatterConst, parse_template};

// Room for the bytes of a separator with its bars halved, as long as the longest template: nothing is taken from the heap.
// Pen and room go on side by side, as one is what is written and the other is scratched on.
pub(crate) type Scratch = [u8; TEMPLATE_LIMIT];

// The powers of a template or a separator: a POWER.
pub(crate) fn power(powers: BindPowerPair, pen: &mut Pen<'_>) -> Result<(), Full>
    ensures { Wrote pen.old pen.new (1 ∷ word_of powers.left (word_of powers.right [])) result }
{
    command(pen, Opcode::Power, &[powers.left, powers.right])
}

// A separator that is read: its powers, its pieces, END.
fn framed_pieces(parts: &FormatterConst, pen: &mut Pen<'_>) -> Result<(), Full>
    requires { AllByRecursion Pathed (outputs_of parts.now) }
    ensures { Wrote pen.old pen.new (framed parts.now.bind_power (codes_by plain_code (outputs_of parts.now))) result }
{
    power(parts.bind_power, pen)?;
    plain_pieces(parts, pen)?;
    command(pen, Opcode::End, &[])
}

// A separator as it was typed: its bars are halved into `scratch`, and it is read from there.
fn separator(typed: &[u8], scratch: &mut Scratch, pen: &mut Pen<'_>) -> Result<(), Full>
    requires { Legible typed.now }
    ensures { Wrote pen.old pen.new (separator_code typed.now) result }
{
    let size = halve(typed, b'|', scratch).unwrap_or(0);
    let read = parse_template(&scratch[0..size]).unwrap();
    framed_pieces(&read, pen)
}

// The separators of a repeat.
pub(crate) fn separators(
    left: &[u8],
    middle: &[u8],
    right: &[u8],
    scratch: &mut Scratch,
    pen: &mut Pen<'_>,
) -> Result<(), Full>
    requires left { Legible left.now }
    requires middle { Legible middle.now }
    requires right { Legible right.now }
    ensures { Wrote pen.old pen.new (separators_code left.now middle.now right.now) result }
{
    separator(left, scratch, pen)?;
    separator(middle, scratch, pen)?;
    separator(right, scratch, pen)
}
