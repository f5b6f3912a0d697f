ghost use Rattle.std.specs.List.{AllByRecursion};
ghost use Rattle.controls.specs.Views.{shape};
ghost use Rattle.pen.specs.Pen.{Wrote};
ghost use Rattle.encode.specs.Shapes.{child_code, plain_code, codes_by};
ghost use Rattle.encode.specs.Walks.{Stepped, Pathed};
ghost use Rattle.templates.specs.Outputs.{outputs_of};

use crate::commands::command;
use crate::steps::steps;
use crate::texts::text;
use codes::Opcode;
use controls::SubFormatterConst;
use grammar::{BindPowerPair, ChildIndex};
use pen::{Full, Pen};
use templates::FormatterConst;

// A child: its steps, and a CHILD of its index with the powers.
fn child(
    path: &[u8],
    index: ChildIndex,
    powers: BindPowerPair,
    pen: &mut Pen<'_>,
) -> Result<(), Full>
    requires { Stepped path.now }
    ensures { Wrote pen.old pen.new (child_code path.now index powers) result }
{
    steps(path, pen)?;
    command(
        pen,
        Opcode::Child,
        &[index.bits(), powers.left, powers.right],
    )
}

// A piece of a separator, which is never a repeat.
pub(crate) fn plain_piece(piece: &SubFormatterConst, pen: &mut Pen<'_>) -> Result<(), Full>
    requires { Pathed (shape piece.now) }
    ensures { Wrote pen.old pen.new (plain_code (shape piece.now)) result }
{
    match *piece {
        SubFormatterConst::String(typed) => text(typed, pen),
        SubFormatterConst::Single {
            path,
            index,
            bind_power,
        } => child(path, index, bind_power, pen),
        SubFormatterConst::Capture(n) => command(pen, Opcode::Capture, &[n]),
        SubFormatterConst::Repeat { .. } => Ok(()),
    }
}

// The pieces of a separator.
pub(crate) fn plain_pieces(parts: &FormatterConst, pen: &mut Pen<'_>) -> Result<(), Full>
    requires { AllByRecursion Pathed (outputs_of parts.now) }
    ensures { Wrote pen.old pen.new (codes_by plain_code (outputs_of parts.now)) result }
{
    for piece in parts.outputs() {
        plain_piece(&piece, pen)?;
    }
    Ok(())
}
