ghost use Rattle.std.specs.Prelude.{◌≡◌, ◌≤◌, List, ◌∷◌, length};
ghost use Rattle.moves.specs.Ends.{bracketed};
ghost use Rattle.moves.specs.Walk.{over};
ghost use Rattle.wire.specs.Ahead.{ahead};
ghost use Rattle.wire.specs.Cursor.{ahead_of, bytes_of, IsTailOf};
ghost use Rattle.wire.specs.declared.commands.Command.{Command};

use grammar::BindPowerPair;
use wire::{Command, Commands};

// Goes on behind all that belongs to a command which was just read: a range has its three separators behind it.
pub fn pass_operands(commands: &mut Commands<'_>, command: Command)
    ensures commands { ahead_of commands.new ≡ over command (ahead_of commands.old) }
    ensures fewer { length (bytes_of commands.new) ≤ length (bytes_of commands.old) }
    ensures tail { IsTailOf (bytes_of commands.new) (bytes_of commands.old) }
{
    if command.is_range() {
        commands.pass();
        commands.pass();
        commands.pass();
    }
}

// Whether brackets enclose what a code shows, between these powers.
pub fn bracketed(code: &[u8], around: BindPowerPair) -> bool
    ensures { result ≡ bracketed (ahead code.now 0) around.left around.right }
{
    Commands::of(code)
        .next()
        .is_some_and(|command| exceeded(command, around))
}

// Whether a power of a reading is exceeded by the one beside it.
fn exceeded(command: Command, around: BindPowerPair) -> bool
    ensures { (ks : List Command) → result ≡ bracketed (command ∷ ks) around.left around.right }
{
    matches!(command, Command::Power { left, right } if left < around.left || right < around.right)
}
