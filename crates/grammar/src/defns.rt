ghost use Rattle.std.specs.Prelude.{◌≡◌, MatchResult};
ghost use Rattle.grammar.specs.Numbers.{bits};
ghost use Rattle.grammar.specs.Powers.{symmetric};
ghost use Rattle.grammar.specs.Indices.{IndexOf};

// A child's number among its siblings: counted from the first if at least 0, else back from the last.
#[derive(Clone, Copy, Debug, PartialEq, Eq)]
pub struct ChildIndex(pub i32);

// The 32 bits of the one number that is no index.
#[derive(Clone, Copy, Debug, PartialEq, Eq)]
pub struct NoIndex;

impl ChildIndex {
    // The 32 bits of the number, in two's complement.
    pub fn bits(self) -> u32
        ensures { result ≡ bits self.0 }
    {
        self.0.cast_unsigned()
    }
}

// The index that 32 bits mean in two's complement.
impl TryFrom<u32> for ChildIndex {
    type Error = NoIndex;

    ghost try_from_gives = { IndexOf };

    fn try_from(word: u32) -> Result<ChildIndex, NoIndex> {
        match word.cast_signed() {
            i32::MAX => Err(NoIndex),
            number => Ok(ChildIndex(number)),
        }
    }
}

// How strongly something binds on its left and on its right.
#[derive(Clone, Copy, Debug, Default, PartialEq, Eq)]
pub struct BindPowerPair {
    pub left: u32,
    pub right: u32,
}

impl BindPowerPair {
    // The same power on both sides.
    pub fn symmetric(power: u32) -> BindPowerPair
        ensures { result ≡ symmetric power }
    {
        BindPowerPair {
            left: power,
            right: power,
        }
    }
}
