ghost use Rattle.std.specs.Prelude.{◌≡◌, ◌≤◌, false, length, IfSome};
ghost use Rattle.wire.specs.Cursor.{bytes_of};
ghost use Rattle.decode.specs.Behind.{left_of, behind_separator, behind_three, behind_command, behind_template, rest_inside, rest_outside};
ghost use Rattle.decode.specs.Walking.{start, closing};

use crate::walks::Walk;
use wire::{Command, Commands};

// Whether the command is a text's `)`.
fn is_closing(command: Command) -> bool
    ensures { result ≡ closing command }
{
    matches!(command, Command::Byte(b')'))
}

// What stands behind the END of a separator whose commands come first, if it is allowed. `suffixed`: its right power is written. `outside_end`
// has no text's `)` to remember, and separators to pass over: one function of both would take more parameters than they share lines.
fn inside_end<'a>(mut commands: Commands<'a>, suffixed: bool) -> Option<Commands<'a>>
    ensures fewer { IfSome result (λ c. length (bytes_of c) ≤ length (bytes_of commands.entry)) }
    ensures value { left_of result ≡ rest_inside suffixed start false (bytes_of commands.entry) }
{
    let mut walk = Walk::start();
    let mut closed = false;
    'run: while let Some(command) = commands.read() {
        if command.is_end() {
            return walk.may_end(closed, suffixed).then_some(commands);
        }
        walk = walk.with_inside(closed, command)?;
        closed = is_closing(command);
    }
    None
}

// What stands behind the separator that comes first, if one comes that is allowed. `template_end` begins
// like this; as one function the two would take what reads on as a parameter, and each contract would have a clause more.
fn separator_end<'a>(mut commands: Commands<'a>) -> Option<Commands<'a>>
    ensures fewer { IfSome result (λ c. length (bytes_of c) ≤ length (bytes_of commands.entry)) }
    ensures value { left_of result ≡ behind_separator (bytes_of commands.entry) }
{
    match commands.read()? {
        Command::Power { right, .. } => inside_end(commands, right != 0),
        _ => None,
    }
}

// What stands behind the three separators that come first.
fn three_end<'a>(commands: Commands<'a>) -> Option<Commands<'a>>
    ensures fewer { IfSome result (λ c. length (bytes_of c) ≤ length (bytes_of commands.entry)) }
    ensures value { left_of result ≡ behind_three (bytes_of commands.entry) }
{
    separator_end(commands)
        .and_then(separator_end)
        .and_then(separator_end)
}

// What stands behind a command whose operands have been read: a range has its three separators there.
fn command_end<'a>(commands: Commands<'a>, command: Command) -> Option<Commands<'a>>
    ensures fewer { IfSome result (λ c. length (bytes_of c) ≤ length (bytes_of commands.entry)) }
    ensures value { left_of result ≡ behind_command command (bytes_of commands.entry) }
{
    match command {
        Command::Range { .. } => three_end(commands),
        _ => Some(commands),
    }
}

// What stands behind the END of a template whose commands come first, if it is allowed.
fn outside_end<'a>(mut commands: Commands<'a>) -> Option<Commands<'a>>
    ensures { left_of result ≡ rest_outside start (bytes_of commands.entry) }
{
    let mut walk = Walk::start();
    'run: while let Some(command) = commands.read() {
        if command.is_end() {
            return walk.may_end(false, false).then_some(commands);
        }
        walk = walk.with(command)?;
        commands = command_end(commands, command)?;
    }
    None
}

// What stands behind the template whose code comes first, if it is allowed.
pub(crate) fn template_end<'a>(mut commands: Commands<'a>) -> Option<Commands<'a>>
    ensures { left_of result ≡ behind_template (bytes_of commands.entry) }
{
    match commands.read()? {
        Command::Power { .. } => outside_end(commands),
        _ => None,
    }
}
