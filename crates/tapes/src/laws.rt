ghost use Rattle.tapes.specs.Postfix.{Postfix};
ghost use Rattle.tapes.specs.Tape.{OpensOnce};

// Stands for the theorem: nodes open as one source, up to equality.
pub fn tape_opens_once() -> bool
    ensures { OpensOnce }
{
    true
}

// Stands for the theorem: the children of a term are the roots of the subtrees that end just before it.
pub fn postfix_trees() -> bool
    ensures { Postfix }
{
    true
}
