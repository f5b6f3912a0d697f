ghost use Rattle.std.specs.Prelude.{◌≡◌, ◌+◌, ◌<◌, ◌==◌};
ghost use Rattle.lines.specs.Events.{context};
ghost use Rattle.print.specs.Jobs.{powers_of};

use grammar::BindPowerPair;
use wire::Commands;

// Children in a row: of which term, from which place up to which, the separators before, between and behind them, and the powers.
#[derive(Clone, Copy)]
pub(crate) struct Row<'j> {
    pub(crate) parent: usize,
    pub(crate) first: usize,
    pub(crate) end: usize,
    pub(crate) before: Commands<'j>,
    pub(crate) between: Commands<'j>,
    pub(crate) behind: Commands<'j>,
    pub(crate) outer: BindPowerPair,
    pub(crate) middle: BindPowerPair,
}

// The powers round the child at a place.
pub(crate) fn around(row: &Row<'_>, place: usize) -> BindPowerPair
    requires { place < row.now.end }
    ensures { context result.left result.right ≡ powers_of row.now (place == row.now.first) (place + 1 == row.now.end) }
{
    let left = if place == row.first {
        row.outer.left
    } else {
        row.middle.right
    };
    let right = if place + 1 == row.end {
        row.outer.right
    } else {
        row.middle.left
    };
    BindPowerPair { left, right }
}
