ghost use Rattle.std.specs.Prelude.{◌≡◌};
ghost use Rattle.codes.specs.Opcodes.{number_of, OpcodeOf};

// The kinds of commands in a code, each with the number that stands first in such a command.
#[derive(Clone, Copy, Debug, PartialEq, Eq)]
pub enum Opcode {
    End = 0,
    Power = 1,
    Byte = 2,
    Step = 3,
    Child = 4,
    Range = 5,
    Capture = 6,
}

// A byte that is the number of no kind of command.
#[derive(Clone, Copy, Debug, PartialEq, Eq)]
pub struct NoOpcode;

impl Opcode {
    pub fn number(self) -> u8
        ensures { result ≡ number_of self }
    {
        self as u8
    }
}

impl TryFrom<u8> for Opcode {
    type Error = NoOpcode;

    ghost try_from_gives = { OpcodeOf };

    fn try_from(number: u8) -> Result<Opcode, NoOpcode> {
        match number {
            0 => Ok(Opcode::End),
            1 => Ok(Opcode::Power),
            2 => Ok(Opcode::Byte),
            3 => Ok(Opcode::Step),
            4 => Ok(Opcode::Child),
            5 => Ok(Opcode::Range),
            6 => Ok(Opcode::Capture),
            _ => Err(NoOpcode),
        }
    }
}
