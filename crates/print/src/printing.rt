ghost use Rattle.std.specs.Prelude.{◌≡◌, length};
ghost use Rattle.lines.specs.Cut.{printing, answer, left};
ghost use Rattle.lines.specs.Events.{line, alone};
ghost use Rattle.lines.specs.Laws.{Laws};
ghost use Rattle.moves.specs.Run.{state, outcome, run};

use crate::show::show;
use grammar::BindPowerPair;
use lines::{Chooser, LineError, Printed, Unfinished};
use moves::LinePen;
use terms::TermSource;

// Chooser and source come one by one from the caller of `print`; below, each visit holds them.

// Shows the term that a print begins with.
fn begin<C: Chooser, S: TermSource>(
    chooser: &C,
    source: &S,
    term: usize,
    pen: &mut LinePen<'_>,
) -> Result<(), LineError>
    ensures same { pen.new.out.ghost_name ≡ pen.old.out.ghost_name }
    ensures shown { outcome pen.new result ≡ run (line (C.Chooser.choices chooser.now).chosen (S.TermSource.view source.now) 1 term alone) (state pen.old) }
{
    show(chooser, source, term, 1, BindPowerPair::default(), pen)
}

// Prints a term into a buffer: each term is shown by what is chosen for its name and its child count.
// A refusal leaves what was written before it in the buffer, and the bytes behind that as they were.
pub fn print<C: Chooser, S: TermSource>(
    chooser: &C,
    source: &S,
    term: usize,
    out: &mut [u8],
) -> Result<Printed, Unfinished>
    ensures answer { result ≡ answer (printing (C.Chooser.choices chooser.now).chosen (S.TermSource.view source.now) term (length out.old)) }
    ensures buffer { out.new ≡ left (printing (C.Chooser.choices chooser.now).chosen (S.TermSource.view source.now) term (length out.old)) out.old }
    ensures laws { Laws }
{
    if term >= source.count() {
        return Err(Unfinished {
            kind: LineError::NoSuchTerm,
            count: 0,
        });
    }
    let mut pen = LinePen::new(out);
    let shown = begin(chooser, source, term, &mut pen);
    let printed = pen.printed();
    match shown {
        Ok(()) => Ok(printed),
        Err(kind) => Err(Unfinished {
            kind,
            count: printed.count,
        }),
    }
}
