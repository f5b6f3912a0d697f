ghost use Rattle.terms.specs.Laws.{Agreement};

// Stands for the theorem: sources are equal exactly when they agree in every answer.
pub fn agreement() -> bool
    ensures { Agreement }
{
    true
}
