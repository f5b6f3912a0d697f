ghost use Rattle.std.specs.Prelude.{◌≡◌, [], ◌∷◌, ◌++◌};
ghost use Rattle.codes.specs.Written.{marked};
ghost use Rattle.grammar.specs.Numbers.{numeral};
ghost use Rattle.wire.specs.Cursor.{ahead_of};
ghost use Rattle.written.specs.Pens.{Writes};
ghost use Rattle.written.specs.Spelled.{bars, texted, indexed, paired, powered, bracket_of, opened, spelled};

use crate::commands::is_step;
use crate::pen::Pen;
use grammar::ChildIndex;
use wire::{Command, Commands};

// Writes a byte of a text, twice where it is a mark.
fn put_text(pen: &mut Pen, b: u8, inside: bool)
    ensures { Writes (texted inside b) pen.old pen.new }
{
    if b == b'$' || inside && b == b'|' {
        pen.put(b);
    }
    pen.put(b);
}

fn put_bar(pen: &mut Pen, inside: bool)
    ensures { Writes (bars inside) pen.old pen.new }
{
    if inside {
        pen.put(b'|');
    }
    pen.put(b'|');
}

fn put_index(pen: &mut Pen, index: ChildIndex)
    ensures { Writes (indexed index) pen.old pen.new }
{
    pen.put_numeral(index.bits());
}

// Powers come as the words of a command, as they stand in a code, and are written one by one.

// Writes the powers of a child.
fn put_pair(pen: &mut Pen, left: u32, right: u32, inside: bool)
    ensures { Writes (paired inside left right) pen.old pen.new }
{
    if left == 0 && right == 0 {
        return;
    }
    put_bar(pen, inside);
    pen.put_numeral(left);
    pen.put(b',');
    pen.put_numeral(right);
}

// Writes the powers of a repeat.
fn put_powers(pen: &mut Pen, left: u32, middle_left: u32, middle_right: u32, right: u32)
    ensures { Writes (powered left middle_left middle_right right) pen.old pen.new }
{
    if left == 0 && middle_left == 0 && middle_right == 0 && right == 0 {
        return;
    }
    pen.put(b'|');
    pen.put_numeral(left);
    pen.put(b'|');
    pen.put_numeral(middle_left);
    pen.put(b',');
    pen.put_numeral(middle_right);
    pen.put(b'|');
    pen.put_numeral(right);
}

// The bracket that opens a path: that of what its steps lead to.
fn bracket(commands: Commands) -> u8
    ensures { result ≡ bracket_of (ahead_of commands.entry) }
{
    for command in commands {
        if command.is_range() {
            return b'(';
        }
        if !is_step(command) {
            return b'[';
        }
    }
    b'['
}

fn put_open(pen: &mut Pen, waits: bool, opening: u8)
    ensures { Writes (opened waits opening) pen.old pen.new }
{
    if !waits {
        pen.put_all(&[b'$', opening, b'#']);
    }
}

// Opens a path at its first step. The bracket is looked for there alone, since that reads on to the path's end.
fn put_first(pen: &mut Pen, commands: Commands, waits: bool)
    ensures { Writes (opened waits (bracket_of (ahead_of commands.entry))) pen.old pen.new }
{
    if !waits {
        put_open(pen, false, bracket(commands));
    }
}

// Writes a step, whose path leads to what stands first in `commands` behind the other steps.
fn put_step(pen: &mut Pen, index: ChildIndex, commands: Commands, waits: bool)
    ensures { Writes (opened waits (bracket_of (ahead_of commands.entry)) ++ (indexed index ++ 58 ∷ [])) pen.old pen.new }
{
    put_first(pen, commands, waits);
    put_index(pen, index);
    pen.put(b':');
}

fn put_child(pen: &mut Pen, index: ChildIndex, left: u32, right: u32, waits: bool, inside: bool)
    ensures { Writes (opened waits 91 ++ (indexed index ++ (paired inside left right ++ 93 ∷ 36 ∷ []))) pen.old pen.new }
{
    put_open(pen, waits, b'[');
    put_index(pen, index);
    put_pair(pen, left, right, inside);
    pen.put_all(b"]$");
}

fn put_range(pen: &mut Pen, from: ChildIndex, to: ChildIndex, waits: bool)
    ensures { Writes (opened waits 40 ++ (indexed from ++ (46 ∷ 46 ∷ indexed to))) pen.old pen.new }
{
    put_open(pen, waits, b'(');
    put_index(pen, from);
    pen.put_all(b"..");
    put_index(pen, to);
}

fn put_capture(pen: &mut Pen, number: u32)
    ensures { Writes (36 ∷ 123 ∷ (numeral number ++ 125 ∷ 36 ∷ [])) pen.old pen.new }
{
    pen.put_all(b"${");
    pen.put_numeral(number);
    pen.put_all(b"}$");
}

// Writes what stands for a command, of a range up to its separators. `commands`: those behind it. `waits`: steps stand right before it.
pub(crate) fn put_command(
    pen: &mut Pen,
    command: Command,
    commands: Commands,
    waits: bool,
    inside: bool,
)
    ensures { Writes (spelled inside waits command (ahead_of commands.entry)) pen.old pen.new }
{
    match command {
        Command::End | Command::Power { .. } => {}
        Command::Byte(b) => put_text(pen, b, inside),
        Command::Step(index) => put_step(pen, index, commands, waits),
        Command::Child { index, left, right } => put_child(pen, index, left, right, waits, inside),
        Command::Range {
            from,
            to,
            left,
            middle_left,
            middle_right,
            right,
        } => {
            put_range(pen, from, to, waits);
            put_powers(pen, left, middle_left, middle_right, right);
        }
        Command::Capture(number) => put_capture(pen, number),
    }
}

// Writes a power between `$`, where it stands.
pub(crate) fn put_marked(pen: &mut Pen, stands: bool, power: u32)
    ensures { Writes (marked stands power) pen.old pen.new }
{
    if stands {
        pen.put(b'$');
        pen.put_numeral(power);
        pen.put(b'$');
    }
}
