ghost use Rattle.std.specs.Prelude.{◌≡◌, ◌<◌, ◌≤◌, length, drop, MatchOption};
ghost use Rattle.std.specs.Iterator.{YieldsFirst, item_count};
ghost use Rattle.controls.specs.Steps.{step_at, steps_from, steps_left};

use crate::part::Part;
use crate::paths::parse_index;
use grammar::ChildIndex;

// The step that stands at `at` in a path, and the place of the number behind it; none where no step stands, as at the index.
// The first number of a path stands at 1, behind its `#`.
pub fn step_at(path: &[u8], at: usize) -> Option<(ChildIndex, usize)>
    ensures within { (MatchOption result (0 ≤ 0) (λ p. at < p.1)) × (MatchOption result (0 ≤ 0) (λ p. p.1 ≤ length path.now)) }
    ensures value { result ≡ step_at at (drop at path.now) }
{
    let rest = Part {
        text: path.get(at..)?,
        place: at,
    };
    let (front, behind) = rest.split(b':');
    let next = behind?;
    let step = parse_index(front).ok()?;
    Some((step, next.place))
}

// The steps of a path, one after the other.
#[derive(Clone, Copy)]
pub struct Steps<'a> {
    path: &'a [u8],
    place: usize,
}

impl<'a> Steps<'a> {
    // All steps of a path.
    pub fn of(path: &'a [u8]) -> Steps<'a>
        ensures { steps_left result ≡ steps_from 1 path.now }
    {
        Steps { path, place: 1 }
    }
}

impl<'a> Iterator for Steps<'a> {
    type Item = ChildIndex;

    ghost next_gives = { YieldsFirst steps_left };

    ghost remaining = { item_count steps_left };

    #[tactic(auto, using(crate::proofs::Strides::steps_go, crate::proofs::Strides::steps_end))]
    fn next(&mut self) -> Option<ChildIndex> {
        let (step, behind) = step_at(self.path, self.place)?;
        self.place = behind;
        Some(step)
    }
}
