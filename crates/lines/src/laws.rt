ghost use Rattle.lines.specs.Laws.{Unfolds, Ends, FirstBreach, Alike};
ghost use Rattle.lines.specs.Worked.{WorkedLine};

// Stands for the theorem: a line is the visit of its term, then what is shown of it by the lines of the terms below.
pub fn lines_unfold() -> bool
    ensures { Unfolds }
{
    true
}

// Stands for the theorems: when a line is not cut, and what cuts it.
pub fn lines_cut() -> bool
    ensures ends { Ends }
    ensures breach { FirstBreach }
{
    true
}

// Stands for the theorem: equal sources print alike where the choices agree on what is visited.
pub fn lines_alike() -> bool
    ensures { Alike }
{
    true
}

// Stands for the worked line.
pub fn worked_line() -> bool
    ensures { WorkedLine }
{
    true
}
