ghost use Rattle.std.specs.Prelude.{◌≡◌, ◌+◌, ◌<◌, ◌≤◌, length, drop, MatchOption};
ghost use Rattle.std.specs.Iterator.{YieldsFirstBy, item_count};
ghost use Rattle.controls.specs.Views.{shape};
ghost use Rattle.templates.specs.Outputs.{outputs_from, outputs_left};
ghost use Rattle.templates.specs.Views.{output_at, seen_output};

use controls::{SubFormatterConst, parse_control, unpaired};

// The piece that stands at `at` in the text, and its length; none at the end and where no piece stands.
pub fn output_at<'a>(text: &'a [u8], at: usize) -> Option<(SubFormatterConst<'a>, usize)>
    ensures within { MatchOption result (0 ≤ 0) (λ p. at + p.1 ≤ length text.now) }
    ensures more { MatchOption result (0 ≤ 0) (λ p. 0 < p.1) }
    ensures value { seen_output result ≡ output_at at (drop at text.now) }
{
    let rest = text.get(at..)?;
    let words = unpaired(rest, b'$');
    if words > 0 {
        return Some((SubFormatterConst::String(&rest[..words]), words));
    }
    // by `.ok()?` two goals of the proof stayed open
    let Ok((piece, used)) = parse_control(text, at + 1) else {
        return None;
    };
    Some((piece, used + 1))
}

// The pieces of a text, one after the other.
#[derive(Clone, Copy)]
pub struct Outputs<'a> {
    text: &'a [u8],
    place: usize,
}

impl<'a> Outputs<'a> {
    // All pieces that stand in the text from `place` on.
    pub fn of(text: &'a [u8], place: usize) -> Outputs<'a>
        ensures { outputs_left result ≡ outputs_from place text.now }
    {
        Outputs { text, place }
    }
}

impl<'a> Iterator for Outputs<'a> {
    type Item = SubFormatterConst<'a>;

    ghost next_gives = { YieldsFirstBy shape outputs_left };

    ghost remaining = { item_count outputs_left };

    #[tactic(auto, using(crate::proofs::OutputsLeft::outputs_go, crate::proofs::OutputsLeft::outputs_end))]
    fn next(&mut self) -> Option<SubFormatterConst<'a>> {
        let (piece, size) = output_at(self.text, self.place)?;
        self.place += size;
        Some(piece)
    }
}
