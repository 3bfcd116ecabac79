//! How long the stored sides are.

ghost use Rattle.std.specs.Prelude.{◌≡◌, max, min};

/// Two lengths between which those of all stored sides are.
#[derive(Clone, Copy, Debug)]
pub(crate) struct Lengths {
    pub shortest: usize,
    pub longest: usize,
}

impl Lengths {
    /// Those of no sides.
    pub fn of_none() -> Lengths {
        Lengths {
            shortest: usize::MAX,
            longest: 0,
        }
    }

    /// Those of one side more, which is as long as this.
    pub fn with(self, length: usize) -> Lengths
        ensures shortest { result.shortest ≡ min self.shortest length }
        ensures longest { result.longest ≡ max self.longest length }
    {
        Lengths {
            shortest: self.shortest.min(length),
            longest: self.longest.max(length),
        }
    }
}
