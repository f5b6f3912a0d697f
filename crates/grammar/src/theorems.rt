ghost use Rattle.grammar.specs.Laws.{ReadAsTheGrammar, OneReading};
ghost use Rattle.grammar.specs.Worked.{Worked};

// Stands for the worked templates: what each reads as, or how it is refused.
pub fn worked_templates() -> bool
    ensures { Worked }
{
    true
}

// Stands for the theorems: a template is read exactly as the grammar and the limits have it, and in one way.
pub fn read_as_the_grammar() -> bool
    ensures read { ReadAsTheGrammar }
    ensures unique { OneReading }
{
    true
}
