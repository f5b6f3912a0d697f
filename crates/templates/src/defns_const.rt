ghost use Rattle.std.specs.Prelude.{◌≡◌};
ghost use Rattle.templates.specs.Outputs.{outputs_left, outputs_of};

use crate::walk::Outputs;
use grammar::BindPowerPair;
use matchers::MatcherConst;

// A template's powers, and where its pieces stand: in `text`, the template up to its suffix, from `start` on.
#[derive(Clone, Copy)]
pub struct FormatterConst<'a> {
    pub bind_power: BindPowerPair,
    pub text: &'a [u8],
    pub start: usize,
    // how many pieces there are
    pub outputs: usize,
    // the greatest capture among them
    pub max_capture: Option<u32>,
}

impl<'a> FormatterConst<'a> {
    // The pieces, one after the other.
    pub fn outputs(&self) -> Outputs<'a>
        ensures { outputs_left result ≡ outputs_of self.now }
    {
        Outputs::of(self.text, self.start)
    }
}

// A definition: a matcher with its template.
#[derive(Clone, Copy)]
pub struct TermDisplayConst<'a> {
    pub matcher: MatcherConst<'a>,
    pub formatter: FormatterConst<'a>,
}
