ghost use Rattle.std.specs.Prelude.{◌≡◌, ◌≤◌, length};
ghost use Rattle.grammar.specs.Numbers.{bits};
ghost use Rattle.lines.specs.Children.{place_of};
ghost use Rattle.moves.specs.Ends.{first_index, end_of, counted};
ghost use Rattle.moves.specs.Walk.{reached, onward};

use grammar::ChildIndex;
use terms::TermSource;
use wire::Command;

// The place that an index means, where a negative one counts back from so many children; none where that is before the first of them.
fn counted(index: ChildIndex, count: usize) -> Option<usize>
    ensures { result ≡ counted count (bits index.0) }
{
    let far = index.0.unsigned_abs() as usize;
    if index.0 < 0 {
        count.checked_sub(far)
    } else {
        Some(far)
    }
}

// The place that an index names among so many children.
pub fn place_of(index: ChildIndex, count: usize) -> Option<usize>
    ensures { result ≡ place_of count (bits index.0) }
{
    let place = counted(index, count)?;
    (place < count).then_some(place)
}

// The place among so many children at which a range from an index begins.
pub fn first_of(index: ChildIndex, count: usize) -> usize
    ensures { result ≡ first_index count (bits index.0) }
{
    counted(index, count).unwrap_or(0)
}

// The place behind the last child of a range up to an index.
pub fn end_of(index: ChildIndex, count: usize) -> usize
    ensures within { result ≤ count }
    ensures value { result ≡ end_of count (bits index.0) }
{
    counted(index, count).map_or(0, |place| count.min(place.saturating_add(1)))
}

// A term is a number of a source, so each question takes both; a struct of them would be made for each question.

// How many children a term has; none where there is no such term.
pub fn child_number<S: TermSource>(source: &S, term: usize) -> usize
    ensures { result ≡ length ((S.TermSource.view source.now).children term) }
{
    source.child_count(term).unwrap_or(0)
}

// The child of a term that an index names.
pub fn child_of<S: TermSource>(source: &S, term: usize, index: ChildIndex) -> Option<usize>
    ensures { result ≡ reached (S.TermSource.view source.now) term index }
{
    let place = place_of(index, child_number(source, term))?;
    source.child(term, place)
}

// The term at which the command behind this one is carried out: a step leads down, behind every other command it is `term` again.
pub fn onward<S: TermSource>(source: &S, term: usize, here: usize, command: Command) -> usize
    ensures { result ≡ onward (S.TermSource.view source.now) term here command }
{
    match command {
        Command::Step(index) => child_of(source, here, index).unwrap_or(term),
        _ => term,
    }
}
