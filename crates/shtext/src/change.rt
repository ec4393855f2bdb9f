//! A change that a buffer prepared.
ghost use Rattle.std.specs.Prelude.{◌≡◌, ℕ, List, List as Row};
ghost use Rattle.shtext.specs.Buffer.{Makes};
ghost use Rattle.shtext.specs.Edit.{ASplice, first_begin, last_end, new_end};

/// The bytes between two offsets of a buffer give way to others. What it takes to make
/// it was taken when it was prepared.
#[derive(Debug, Drop)]
pub struct Change {
    pub(crate) start: usize,
    pub(crate) end: usize,
    /// The bytes that stood between the offsets.
    pub(crate) old: Vec<u8>,
    /// The bytes that are to stand there.
    pub(crate) new: Vec<u8>,
}

impl Change {
    /// Where the bytes begin that are to stand there, where they end, and where those ended
    /// that give way.
    pub fn places(&self) -> (usize, usize, usize)
        ensures { (bytes : List ℕ) (ss : Row ASplice) → Makes bytes ss self.now →
            (result.0 ≡ first_begin ss) × ((result.1 ≡ new_end ss) × (result.2 ≡ last_end ss)) }
    {
        let new_end = self.start.saturating_add(self.new.len());
        (self.start, new_end, self.end)
    }
}
