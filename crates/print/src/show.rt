ghost use Rattle.std.specs.Prelude.{◌≡◌, ◌<◌, ◌≤◌, true, length};
ghost use Rattle.lines.specs.Events.{context, line};
ghost use Rattle.moves.specs.Run.{state, outcome, run};
ghost use Rattle.print.specs.Jobs.{children_of, plain_at, inside_at, part_at, outside_at, one_at, row_at, range_at, enclosed_at};
ghost use Rattle.wire.specs.Ahead.{ahead};
ghost use Rattle.wire.specs.Cursor.{ahead_of};

use crate::job::Job;
use crate::row::{Row, around};
use grammar::BindPowerPair;
use lines::{Choice, Chooser, LineError};
use moves::{
    LinePen, bracketed, captured, child_number, child_of, copy_name, end_of, first_of, onward,
    pass_operands,
};
use terms::{LONGEST_NAME, TermSource};
use wire::{Command, Commands};

// Each function is a rule of the line, by its name in specs/Jobs, and takes the visit as the rule does; as a method it would
// read `self` for `job` and be no plainer.

// Carries out one command at the term `here`; a range is not carried out here.
#[cycle(enclosed_one_part_pieces_plain_range_row_separator_show)]
fn plain<C: Chooser, S: TermSource>(
    job: &Job<'_, C, S, C::Match>,
    here: usize,
    command: Command,
    pen: &mut LinePen<'_>,
) -> Result<(), LineError>
    ensures { outcome pen.new result ≡ run (plain_at (C.Chooser.choices job.now.chooser.now).chosen (S.TermSource.view job.now.source.now) C.Match.Spans.listed job.now here command) (state pen.old) }
{
    match command {
        Command::Byte(b) => pen.put(b),
        Command::Step(index) => {
            let _ = child_of(job.source, here, index).ok_or(LineError::MissingChild)?;
            Ok(())
        }
        Command::Child { index, left, right } => {
            let child = child_of(job.source, here, index).ok_or(LineError::MissingChild)?;
            let powers = BindPowerPair { left, right };
            show(job.chooser, job.source, child, job.depth + 1, powers, pen)
        }
        Command::Capture(k) => pen.put_all(captured(job.name, &job.found, k)),
        _ => Ok(()),
    }
}

// Carries out the commands of a separator, for the term of the visit. `pieces` goes through a template alike, with `part` for
// `plain`; as one function both would take the other as a parameter, whose contract is that of the whole cycle of calls.
#[cycle(enclosed_one_part_pieces_plain_range_row_separator_show)]
fn separator<C: Chooser, S: TermSource>(
    job: &Job<'_, C, S, C::Match>,
    separator: Commands<'_>,
    pen: &mut LinePen<'_>,
) -> Result<(), LineError>
    ensures { outcome pen.new result ≡ run (inside_at (C.Chooser.choices job.now.chooser.now).chosen (S.TermSource.view job.now.source.now) C.Match.Spans.listed job.now job.now.term (ahead_of separator.entry)) (state pen.old) }
{
    let mut commands = separator;
    let mut here = job.term;
    // not a `for`, since the body moves the cursor behind what belongs to a command
    'walking: while let Some(command) = commands.next() {
        if command.is_end() {
            return Ok(());
        }
        plain(job, here, command, pen)?;
        here = onward(job.source, job.term, here, command);
        pass_operands(&mut commands, command);
    }
    Ok(())
}

// Shows the child at a place of a row, behind the middle separator if it is not the first.
#[cycle(enclosed_one_part_pieces_plain_range_row_separator_show)]
fn one<C: Chooser, S: TermSource>(
    job: &Job<'_, C, S, C::Match>,
    row: &Row<'_>,
    place: usize,
    pen: &mut LinePen<'_>,
) -> Result<(), LineError>
    requires place { place < row.now.end }
    requires end { row.now.end ≤ length ((S.TermSource.view job.now.source.now).children row.now.parent) }
    ensures { outcome pen.new result ≡ run (one_at (C.Chooser.choices job.now.chooser.now).chosen (S.TermSource.view job.now.source.now) C.Match.Spans.listed job.now row.now place) (state pen.old) }
{
    if place != row.first {
        separator(job, row.between, pen)?;
    }
    let child = job
        .source
        .child(row.parent, place)
        .ok_or(LineError::MissingChild)?;
    let powers = around(row, place);
    show(job.chooser, job.source, child, job.depth + 1, powers, pen)
}

// Shows the children of a row.
#[cycle(enclosed_one_part_pieces_plain_range_row_separator_show)]
fn row<C: Chooser, S: TermSource>(
    job: &Job<'_, C, S, C::Match>,
    row: &Row<'_>,
    pen: &mut LinePen<'_>,
) -> Result<(), LineError>
    requires { row.now.end ≤ length ((S.TermSource.view job.now.source.now).children row.now.parent) }
    ensures { outcome pen.new result ≡ run (row_at (C.Chooser.choices job.now.chooser.now).chosen (S.TermSource.view job.now.source.now) C.Match.Spans.listed job.now row.now true (children_of (S.TermSource.view job.now.source.now) row.now)) (state pen.old) }
{
    // by place, since the powers and the separators beside a child go by its place
    for place in row.first..row.end {
        one(job, row, place, pen)?;
    }
    Ok(())
}

// Shows the children of a row between its outer separators; nothing where it has no children.
#[cycle(enclosed_one_part_pieces_plain_range_row_separator_show)]
fn range<C: Chooser, S: TermSource>(
    job: &Job<'_, C, S, C::Match>,
    span: &Row<'_>,
    pen: &mut LinePen<'_>,
) -> Result<(), LineError>
    requires { span.now.end ≤ length ((S.TermSource.view job.now.source.now).children span.now.parent) }
    ensures { outcome pen.new result ≡ run (range_at (C.Chooser.choices job.now.chooser.now).chosen (S.TermSource.view job.now.source.now) C.Match.Spans.listed job.now span.now (children_of (S.TermSource.view job.now.source.now) span.now)) (state pen.old) }
{
    if span.first >= span.end {
        return Ok(());
    }
    separator(job, span.before, pen)?;
    row(job, span, pen)?;
    separator(job, span.behind, pen)
}

// Carries out one command of the template at the term `here`; `rest` has the commands behind its operands.
#[cycle(enclosed_one_part_pieces_plain_range_row_separator_show)]
fn part<C: Chooser, S: TermSource>(
    job: &Job<'_, C, S, C::Match>,
    here: usize,
    command: Command,
    rest: Commands<'_>,
    pen: &mut LinePen<'_>,
) -> Result<(), LineError>
    ensures { outcome pen.new result ≡ run (part_at (C.Chooser.choices job.now.chooser.now).chosen (S.TermSource.view job.now.source.now) C.Match.Spans.listed job.now here command (ahead_of rest.entry)) (state pen.old) }
{
    match command {
        Command::Range {
            from,
            to,
            left,
            middle_left,
            middle_right,
            right,
        } => {
            let count = child_number(job.source, here);
            let first = first_of(from, count);
            let end = end_of(to, count);
            let mut second = rest;
            second.pass();
            let mut third = second;
            third.pass();
            let span = Row {
                parent: here,
                first,
                end,
                before: rest,
                between: second,
                behind: third,
                outer: BindPowerPair { left, right },
                middle: BindPowerPair {
                    left: middle_left,
                    right: middle_right,
                },
            };
            range(job, &span, pen)
        }
        _ => plain(job, here, command, pen),
    }
}

// Carries out the commands of the template.
#[cycle(enclosed_one_part_pieces_plain_range_row_separator_show)]
fn pieces<C: Chooser, S: TermSource>(
    job: &Job<'_, C, S, C::Match>,
    pen: &mut LinePen<'_>,
) -> Result<(), LineError>
    ensures { outcome pen.new result ≡ run (outside_at (C.Chooser.choices job.now.chooser.now).chosen (S.TermSource.view job.now.source.now) C.Match.Spans.listed job.now job.now.term (ahead job.now.code.now 0)) (state pen.old) }
{
    let mut commands = Commands::of(job.code);
    let mut here = job.term;
    // not a `for`, since the body moves the cursor behind what belongs to a command
    'walking: while let Some(command) = commands.next() {
        if command.is_end() {
            return Ok(());
        }
        part(job, here, command, commands, pen)?;
        here = onward(job.source, job.term, here, command);
        pass_operands(&mut commands, command);
    }
    Ok(())
}

// Carries out the template, in brackets if a power beside the term exceeds its own on that side.
#[cycle(enclosed_one_part_pieces_plain_range_row_separator_show)]
fn enclosed<C: Chooser, S: TermSource>(
    job: &Job<'_, C, S, C::Match>,
    powers: BindPowerPair,
    pen: &mut LinePen<'_>,
) -> Result<(), LineError>
    ensures { outcome pen.new result ≡ run (enclosed_at (C.Chooser.choices job.now.chooser.now).chosen (S.TermSource.view job.now.source.now) C.Match.Spans.listed job.now powers.left powers.right) (state pen.old) }
{
    if bracketed(job.code, powers) {
        pen.put(b'(')?;
        pieces(job, pen)?;
        pen.put(b')')
    } else {
        pieces(job, pen)
    }
}

// Visits a term at a depth, between two powers, and shows it by what is chosen for it.
#[cycle(enclosed_one_part_pieces_plain_range_row_separator_show)]
pub(crate) fn show<C: Chooser, S: TermSource>(
    chooser: &C,
    source: &S,
    term: usize,
    depth: usize,
    powers: BindPowerPair,
    pen: &mut LinePen<'_>,
) -> Result<(), LineError>
    ensures { outcome pen.new result ≡ run (line (C.Chooser.choices chooser.now).chosen (S.TermSource.view source.now) depth term (context powers.left powers.right)) (state pen.old) }
{
    pen.enter(depth)?;
    let count = child_number(source, term);
    // of the longest name, since a print takes no memory from the heap
    let mut name = [0u8; LONGEST_NAME];
    let len = copy_name(source, term, &mut name);
    let Choice { code, found } = chooser.choose(&name[0..len], count);
    let job = Job {
        chooser,
        source,
        term,
        depth,
        name: &name[0..len],
        code,
        found,
    };
    enclosed(&job, powers, pen)
}
