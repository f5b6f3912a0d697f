ghost use Rattle.grammar.specs.Paths.{steps_of};
ghost use Rattle.pen.specs.Pen.{Wrote};
ghost use Rattle.encode.specs.Shapes.{paces};
ghost use Rattle.encode.specs.Walks.{Stepped};

use crate::commands::command;
use codes::Opcode;
use controls::Steps;
use pen::{Full, Pen};

// The steps of a path, each a STEP.
pub(crate) fn steps(path: &[u8], pen: &mut Pen<'_>) -> Result<(), Full>
    requires { Stepped path.now }
    ensures { Wrote pen.old pen.new (paces (steps_of path.now)) result }
{
    for index in Steps::of(path) {
        command(pen, Opcode::Step, &[index.bits()])?;
    }
    Ok(())
}
