ghost use Rattle.grammar.specs.Marks.{halve};
ghost use Rattle.pen.specs.Pen.{Wrote};
ghost use Rattle.encode.specs.Shapes.{letters};

use codes::Opcode;
use controls::Halved;
use pen::{Full, Pen};

// A text as it was typed, its pairs of `$` halved: each byte a BYTE.
pub(crate) fn text(typed: &[u8], pen: &mut Pen<'_>) -> Result<(), Full>
    ensures { Wrote pen.old pen.new (letters (halve 36 typed.now)) result }
{
    for b in Halved::of(typed, b'$') {
        pen.put_both(Opcode::Byte.number(), b)?;
    }
    Ok(())
}
