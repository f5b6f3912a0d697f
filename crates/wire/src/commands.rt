ghost use Rattle.std.specs.Prelude.{◌≡◌};

use grammar::ChildIndex;

// A command of a code with its operands, word by word in the order in which they stand.
#[derive(Clone, Copy, Debug, PartialEq, Eq)]
pub enum Command {
    End,
    Power {
        left: u32,
        right: u32,
    },
    Byte(u8),
    Step(ChildIndex),
    Child {
        index: ChildIndex,
        left: u32,
        right: u32,
    },
    Range {
        from: ChildIndex,
        to: ChildIndex,
        left: u32,
        middle_left: u32,
        middle_right: u32,
        right: u32,
    },
    Capture(u32),
}

impl Command {
    ghost use Rattle.wire.specs.Ahead.{is_end, is_range};

    pub fn is_end(self) -> bool
        ensures { result ≡ is_end self }
    {
        matches!(self, Command::End)
    }

    pub fn is_range(self) -> bool
        ensures { result ≡ is_range self }
    {
        matches!(self, Command::Range { .. })
    }
}
