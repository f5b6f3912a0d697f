ghost use Rattle.std.specs.Prelude.{[], ◌∷◌};
ghost use Rattle.codes.specs.Code.{word as word_of};
ghost use Rattle.codes.specs.Opcodes.{number_of};
ghost use Rattle.pen.specs.Pen.{Wrote};
ghost use Rattle.encode.specs.Shapes.{words};

use codes::Opcode;
use pen::{Full, Pen};

// A number with four bytes, the most significant first.
#[tactic(auto, using(crate::proofs::Words::be_word))]
fn word(pen: &mut Pen<'_>, n: u32) -> Result<(), Full>
    ensures { Wrote pen.old pen.new (word_of n []) result }
{
    pen.put_all(&n.to_be_bytes())
}

// A command: the number of its kind, and its operands with four bytes each, the most significant first.
pub(crate) fn command(pen: &mut Pen<'_>, kind: Opcode, operands: &[u32]) -> Result<(), Full>
    ensures { Wrote pen.old pen.new (number_of kind ∷ words operands.now) result }
{
    pen.put(kind.number())?;
    for n in operands {
        word(pen, *n)?;
    }
    Ok(())
}
