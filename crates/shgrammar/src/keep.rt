//! What is kept of what is read.
ghost use Rattle.std.specs.Prelude.{◌≡◌};
ghost use Rattle.shgrammar.specs.Form.{grows, inside};

/// The tree that grows of what is read. Definitions that contracts cite are told by it.
#[derive(Clone, Copy, Debug, PartialEq, Eq)]
pub enum Keep {
    /// None: only how far the reading goes is of interest.
    Nothing,
    /// That of the commands which stand in no command substitution.
    Outer,
    /// All of it.
    Whole,
}

impl Keep {
    /// Whether one grows.
    #[inline(always)]
    pub fn grows(self) -> bool
        ensures { result ≡ grows self }
    {
        self != Keep::Nothing
    }

    /// What is kept of what stands in a command substitution.
    #[inline(always)]
    pub fn inside(self) -> Keep
        ensures { result ≡ inside self }
    {
        match self {
            Keep::Whole => Keep::Whole,
            Keep::Outer | Keep::Nothing => Keep::Nothing,
        }
    }
}
