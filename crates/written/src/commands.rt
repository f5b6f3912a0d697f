ghost use Rattle.std.specs.Prelude.{◌≡◌, false, ◌∷◌, MatchOption};
ghost use Rattle.wire.specs.declared.commands.Command.TheVariants.{Power};
ghost use Rattle.wire.specs.Cursor.{ahead_of};
ghost use Rattle.written.specs.Ahead.{over, is_step, is_text, is_mark, is_power, of_first, bare_run};

use grammar::BindPowerPair;
use wire::{Command, Commands};

pub(crate) fn is_over(command: Command) -> bool
    ensures { result ≡ over command }
{
    matches!(command, Command::End | Command::Power { .. })
}

pub(crate) fn is_step(command: Command) -> bool
    ensures { result ≡ is_step command }
{
    matches!(command, Command::Step(_))
}

fn is_text(command: Command, mark: u8) -> bool
    ensures { result ≡ is_text mark command }
{
    matches!(command, Command::Byte(b) if b == mark)
}

fn is_mark(command: Command) -> bool
    ensures { result ≡ is_mark command }
{
    match command {
        Command::Byte(b) => b == b'$',
        _ => !is_over(command),
    }
}

// The powers with which a reading begins, and the commands behind them.
pub(crate) fn powers_first<'a>(mut commands: Commands<'a>) -> Option<(BindPowerPair, Commands<'a>)>
    ensures { MatchOption result (of_first is_power (ahead_of commands.entry) ≡ false) (λ p. ahead_of commands.entry ≡ Power p.0.left p.0.right ∷ ahead_of p.1) }
{
    match commands.next()? {
        Command::Power { left, right } => Some((BindPowerPair { left, right }, commands)),
        _ => None,
    }
}

// Whether a run begins with the byte `mark` of a text.
pub(crate) fn begins_text(mut commands: Commands, mark: u8) -> bool
    ensures { result ≡ of_first (is_text mark) (ahead_of commands.entry) }
{
    commands
        .next()
        .is_some_and(|command| is_text(command, mark))
}

// Whether what is written for a run begins with `$`.
pub(crate) fn begins_mark(mut commands: Commands) -> bool
    ensures { result ≡ of_first is_mark (ahead_of commands.entry) }
{
    commands.next().is_some_and(is_mark)
}

// Whether a run has no command.
pub(crate) fn is_bare_run(mut commands: Commands) -> bool
    ensures { result ≡ bare_run (ahead_of commands.entry) }
{
    commands.next().is_none_or(is_over)
}
