//! The editions of the Shell Command Language.
ghost use Rattle.std.specs.Prelude.{◌≡◌};
ghost use Rattle.shgrammar.specs.Tokens.{is_later};

/// The edition of POSIX by which a script is read.
#[derive(Clone, Copy, Debug, PartialEq, Eq)]
pub enum Edition {
    /// POSIX.1-2017.
    Y2017,
    /// POSIX.1-2024: text in dollar-single quotes, and `;&`.
    Y2024,
}

impl Edition {
    /// Whether it is later than POSIX.1-2017.
    #[inline(always)]
    pub fn is_later(self) -> bool
        ensures { result ≡ is_later self }
    {
        matches!(self, Edition::Y2024)
    }
}
