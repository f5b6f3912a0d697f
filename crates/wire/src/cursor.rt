ghost use Rattle.std.specs.Prelude.{◌≡◌, ◌<◌, ◌≤◌, ◌==◌, length, drop, IfSome, IfNone};
ghost use Rattle.std.specs.Iterator.{YieldsFirst, item_count};
ghost use Rattle.codes.specs.Decode.{byte_at, word_at, capture_at};
ghost use Rattle.wire.specs.Ahead.{ahead, past};
ghost use Rattle.wire.specs.Cursor.{ahead_of, bytes_of, IsTailOf};
ghost use Rattle.wire.specs.Reading.{Takes, index_first, command_first};

use crate::commands::Command;
use codes::Opcode;
use grammar::ChildIndex;

// The commands of a code that are still to be read, one behind the other. A copy of it stays where it is, while the other goes on.
#[derive(Clone, Copy, Debug)]
pub struct Commands<'a> {
    rest: &'a [u8],
}

impl<'a> Commands<'a> {
    // All commands of a code.
    pub fn of(code: &'a [u8]) -> Commands<'a>
        ensures bytes { bytes_of result ≡ code.now }
        ensures commands { ahead_of result ≡ ahead code.now 0 }
    {
        Commands { rest: code }
    }

    // The commands of a code from a place on; none, if it has no byte there.
    pub fn resume(code: &'a [u8], at: usize) -> Commands<'a>
        ensures bytes { bytes_of result ≡ drop at code.now }
        ensures commands { ahead_of result ≡ ahead code.now at }
    {
        Commands {
            rest: code.get(at..).unwrap_or_default(),
        }
    }

    // Whether no byte is left.
    pub fn is_done(self) -> bool
        ensures { result ≡ (length (bytes_of self.entry) == 0) }
    {
        self.rest.is_empty()
    }

    // How many bytes are left. The next command stands so many bytes before the end of the code.
    pub fn left(self) -> usize
        ensures { result ≡ length (bytes_of self.entry) }
    {
        self.rest.len()
    }

    // Goes on behind the next END.
    pub fn pass(&mut self)
        ensures commands { ahead_of self.new ≡ past (ahead_of self.old) }
        ensures fewer { length (bytes_of self.new) ≤ length (bytes_of self.old) }
        ensures tail { IsTailOf (bytes_of self.new) (bytes_of self.old) }
    {
        'passing: while let Some(command) = self.read() {
            if command.is_end() {
                return;
            }
        }
    }

    fn byte(&mut self) -> Option<u8>
        ensures { Takes byte_at (bytes_of self.old) result (bytes_of self.new) }
    {
        let (byte, rest) = self.rest.split_first()?;
        self.rest = rest;
        Some(*byte)
    }

    // Four bytes, the most significant first.
    fn word(&mut self) -> Option<u32>
        ensures { Takes word_at (bytes_of self.old) result (bytes_of self.new) }
    {
        let ([a, b, c, d], rest) = self.rest.split_first_chunk::<4>()?;
        self.rest = rest;
        Some(u32::from_be_bytes([*a, *b, *c, *d]))
    }

    // An index, in two's complement.
    fn index(&mut self) -> Option<ChildIndex>
        ensures { Takes index_first (bytes_of self.old) result (bytes_of self.new) }
    {
        ChildIndex::try_from(self.word()?).ok()
    }

    // The number of a capture.
    fn capture(&mut self) -> Option<u32>
        ensures { Takes capture_at (bytes_of self.old) result (bytes_of self.new) }
    {
        self.word().filter(|number| *number <= i32::MAX as u32)
    }

    // A command with its operands.
    fn command(&mut self) -> Option<Command>
        ensures { Takes command_first (bytes_of self.old) result (bytes_of self.new) }
    {
        match Opcode::try_from(self.byte()?).ok()? {
            Opcode::End => Some(Command::End),
            Opcode::Power => Some(Command::Power {
                left: self.word()?,
                right: self.word()?,
            }),
            Opcode::Byte => Some(Command::Byte(self.byte()?)),
            Opcode::Step => Some(Command::Step(self.index()?)),
            Opcode::Child => Some(Command::Child {
                index: self.index()?,
                left: self.word()?,
                right: self.word()?,
            }),
            Opcode::Range => Some(Command::Range {
                from: self.index()?,
                to: self.index()?,
                left: self.word()?,
                middle_left: self.word()?,
                middle_right: self.word()?,
                right: self.word()?,
            }),
            Opcode::Capture => Some(Command::Capture(self.capture()?)),
        }
    }

    // Reads the next command. Where none stands, it stays.
    pub fn read(&mut self) -> Option<Command>
        ensures bytes { Takes command_first (bytes_of self.old) result (bytes_of self.new) }
        ensures commands { YieldsFirst ahead_of self.old result self.new }
        ensures shorter { IfSome result (λ _. length (bytes_of self.new) < length (bytes_of self.old)) }
        ensures stays { IfNone result (bytes_of self.new ≡ bytes_of self.old) }
    {
        let mut behind = *self;
        let command = behind.command()?;
        *self = behind;
        Some(command)
    }
}

// The separators of a range stand behind it as readings of their own.
impl<'a> Iterator for Commands<'a> {
    type Item = Command;

    ghost next_gives = { YieldsFirst ahead_of };

    ghost remaining = { item_count ahead_of };

    fn next(&mut self) -> Option<Command> {
        self.read()
    }
}
