ghost use Rattle.std.specs.Prelude.{◌≡◌, false, not, ◌&&◌, ◌||◌, [], ◌∷◌, ◌++◌, if◌then◌else◌, ◌==◌};
ghost use Rattle.codes.specs.Written.{marked, parted};
ghost use Rattle.wire.specs.Ahead.{is_range, past};
ghost use Rattle.wire.specs.Cursor.{ahead_of};
ghost use Rattle.written.specs.Ahead.{is_mark, of_first, bare_run};
ghost use Rattle.written.specs.Pens.{Writes};
ghost use Rattle.written.specs.Spelled.{run_back, separator_of, bare_of, bar_of, three_of, separators_of, body_of, template_of};

use crate::commands::{begins_mark, begins_text, is_bare_run, is_over, is_step, powers_first};
use crate::parts::{put_command, put_marked};
use crate::pen::Pen;
use grammar::BindPowerPair;
use wire::{Command, Commands};

fn is_prefixed(run: Commands, powers: BindPowerPair) -> bool
    ensures { result ≡ (not (powers.left == 0) || (of_first is_mark (ahead_of run.entry) || (bare_run (ahead_of run.entry) && not (powers.right == 0)))) }
{
    powers.left != 0 || (begins_mark(run) || (is_bare_run(run) && powers.right != 0))
}

fn is_suffixed(bare: bool, right: u32, last: u8) -> bool
    ensures { result ≡ (not (right == 0) || (not bare && last == 36)) }
{
    right != 0 || (!bare && last == b'$')
}

// Writes the prefix of a run, where it has to stand.
fn put_prefix(pen: &mut Pen, run: Commands, powers: BindPowerPair)
    ensures { Writes (marked (not (powers.left == 0) || (of_first is_mark (ahead_of run.entry) || (bare_run (ahead_of run.entry) && not (powers.right == 0)))) powers.left) pen.old pen.new }
{
    put_marked(pen, is_prefixed(run, powers), powers.left);
}

// Writes the suffix of a run that has been written, where it has to stand.
fn put_suffix(pen: &mut Pen, run: Commands, right: u32)
    ensures { Writes (marked (not (right == 0) || (not (bare_run (ahead_of run.entry)) && pen.old.last == 36)) right) pen.old pen.new }
{
    let stands = is_suffixed(is_bare_run(run), right, pen.last);
    put_marked(pen, stands, right);
}

// Writes the run of a separator.
fn put_run(pen: &mut Pen, mut commands: Commands)
    ensures { Writes (run_back false (ahead_of commands.entry)) pen.old pen.new }
{
    let mut waits = false;
    'run: while let Some(command) = commands.next() {
        if is_over(command) {
            return;
        }
        put_command(pen, command, commands, waits, true);
        waits = is_step(command);
    }
}

// Writes the separator that stands first. A function of this and `put_template` alike, with the writer of the run as a parameter, would take
// a contract for that writer and two for its callers, and be no plainer.
fn put_separator(pen: &mut Pen, commands: Commands)
    ensures { Writes (separator_of (ahead_of commands.entry)) pen.old pen.new }
{
    if let Some((powers, run)) = powers_first(commands) {
        put_prefix(pen, run, powers);
        put_run(pen, run);
        put_suffix(pen, run, powers.right);
    }
}

// Whether the separator that stands first has neither powers nor pieces.
fn is_bare(commands: Commands) -> bool
    ensures { result ≡ bare_of (ahead_of commands.entry) }
{
    powers_first(commands).is_some_and(|(powers, run)| powers.left == 0
        && (powers.right == 0 && is_bare_run(run)))
}

// Whether the separator that stands first begins with a bar.
fn begins_bar(commands: Commands) -> bool
    ensures { result ≡ bar_of (ahead_of commands.entry) }
{
    powers_first(commands).is_some_and(|(powers, run)| powers.left == 0 && begins_text(run, b'|'))
}

// Whether `$0$` has to stand before the middle separator, behind its bar.
fn is_parted(commands: Commands) -> bool
    ensures { result ≡ (bare_of (ahead_of commands.entry) || bar_of (ahead_of commands.entry)) }
{
    is_bare(commands) || begins_bar(commands)
}

// Writes the separator that stands first behind a bar, with `$0$` before it where that has to stand.
fn put_parted(pen: &mut Pen, commands: Commands, stands: bool)
    ensures { Writes (124 ∷ parted stands (separator_of (ahead_of commands.entry))) pen.old pen.new }
{
    pen.put(b'|');
    if stands {
        pen.put_all(b"$0$");
    }
    put_separator(pen, commands);
}

// Writes the middle separator alone.
fn put_middle(pen: &mut Pen, commands: Commands)
    ensures { Writes (if bare_of (ahead_of commands.entry) then [] else 36 ∷ separator_of (ahead_of commands.entry)) pen.old pen.new }
{
    if !is_bare(commands) {
        pen.put(b'$');
        put_separator(pen, commands);
    }
}

// Writes the three separators of a repeat.
fn put_three_separators(pen: &mut Pen, first: Commands, second: Commands, third: Commands)
    ensures { Writes (three_of (ahead_of first.entry) (ahead_of second.entry) (ahead_of third.entry)) pen.old pen.new }
{
    if is_bare(first) && is_bare(third) {
        put_middle(pen, second);
        return;
    }
    pen.put(b'$');
    put_separator(pen, first);
    put_parted(pen, second, is_parted(second));
    put_parted(pen, third, begins_bar(third));
}

// Writes what stands for a repeat behind its powers, and goes on behind its separators.
fn put_separators(pen: &mut Pen, commands: &mut Commands)
    ensures wrote { Writes (separators_of (ahead_of commands.old) ++ 41 ∷ 36 ∷ []) pen.old pen.new }
    ensures passed { ahead_of commands.new ≡ past (past (past (ahead_of commands.old))) }
{
    let first = *commands;
    commands.pass();
    let second = *commands;
    commands.pass();
    put_three_separators(pen, first, second, *commands);
    pen.put_all(b")$");
    commands.pass();
}

// Writes what a command has behind it, the separators of a range, and goes on behind that.
fn put_behind(pen: &mut Pen, command: Command, commands: &mut Commands)
    ensures wrote { Writes (if is_range command then separators_of (ahead_of commands.old) ++ 41 ∷ 36 ∷ [] else []) pen.old pen.new }
    ensures passed { ahead_of commands.new ≡ (if is_range command then past (past (past (ahead_of commands.old))) else ahead_of commands.old) }
{
    if command.is_range() {
        put_separators(pen, commands);
    }
}

// Writes the run of a template. `put_run` stands below it, since the separators of a range are written here: both as one function would call
// itself.
fn put_body(pen: &mut Pen, mut commands: Commands)
    ensures { Writes (body_of 0 false (ahead_of commands.entry)) pen.old pen.new }
{
    let mut waits = false;
    'body: while let Some(command) = commands.next() {
        if is_over(command) {
            return;
        }
        put_command(pen, command, commands, waits, false);
        waits = is_step(command);
        put_behind(pen, command, &mut commands);
    }
}

// Writes the template whose code these commands are.
pub(crate) fn put_template(pen: &mut Pen, commands: Commands)
    ensures { Writes (template_of (ahead_of commands.entry)) pen.old pen.new }
{
    if let Some((powers, run)) = powers_first(commands) {
        put_prefix(pen, run, powers);
        put_body(pen, run);
        put_suffix(pen, run, powers.right);
    }
}
