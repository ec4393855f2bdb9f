//! Whether splices are allowed. Of a text, its length decides that.
ghost use Rattle.std.specs.Prelude.{◌≡◌, ◌≢◌, ◌≤◌, ◌↔◌, ◌++◌, ◌∷◌, [], ℕ, List, List as Row, IfErr, IfOk, IsTrue, length};
ghost use Rattle.shtext.specs.Edit.{ASplice, AreAllowed, Refuses, IsTally};

use crate::error::TextError;

/// The most bytes that a text has.
pub const LIMIT: usize = 16_777_216;

/// What lengths tell of splices that are made together: they are added one after the other, so
/// that none has to be kept. It takes no memory.
#[derive(Clone, Copy, Debug)]
pub struct Tally {
    /// How many bytes the text has.
    len: usize,
    /// Where the last splice ends.
    last: usize,
    /// Where its bytes end in the edited text.
    made: usize,
    is_in_range: bool,
    is_rising: bool,
}

impl Tally {
    /// No splice of a text of so many bytes.
    pub fn new(len: usize) -> Tally
        ensures { IsTally result len [] }
    {
        Tally {
            len,
            last: 0,
            made: 0,
            is_in_range: true,
            is_rising: true,
        }
    }

    /// One splice more: so many bytes in the place of those from `a` up to `b`.
    pub fn add(&mut self, a: usize, b: usize, count: usize)
        ensures { (len : ℕ) (ss : Row ASplice) (bytes : List ℕ) → length bytes ≡ count →
            IsTally self.old len ss →
            IsTally self.new len (ss ++ record { a = a; b = b; bytes = bytes } ∷ []) }
    {
        self.is_in_range &= is_inside(a, b, self.len);
        self.is_rising &= self.last <= a;
        let between = a.saturating_sub(self.last);
        self.made = self.made.saturating_add(between.saturating_add(count));
        self.last = b;
    }

    /// Where the last splice ends.
    pub(crate) fn last_end(&self) -> usize
        ensures { result ≡ self.now.last }
    {
        self.last
    }

    /// Where its bytes end in the edited text.
    pub(crate) fn new_end(&self) -> usize {
        self.made
    }

    /// Whether they are allowed. Want of memory is not told.
    pub fn answer(&self) -> Result<(), TextError>
        ensures ok { IfOk result (λ _. (bytes : List ℕ) (ss : Row ASplice) →
            IsTally self.now (length bytes) ss → AreAllowed bytes ss) }
        ensures err { IfErr result (λ e. (bytes : List ℕ) (ss : Row ASplice) →
            IsTally self.now (length bytes) ss → Refuses bytes ss e) }
        ensures no_memory { IfErr result (λ e. e ≢ TextError.Memory) }
    {
        if !self.is_in_range {
            return Err(TextError::Range);
        }
        if !self.is_rising {
            return Err(TextError::Order);
        }
        let after = self.len.saturating_sub(self.last);
        if self.made.saturating_add(after) > LIMIT {
            return Err(TextError::TooLarge);
        }
        Ok(())
    }
}

/// Whether what stands from `a` up to `b` lies in a text of so many bytes.
fn is_inside(a: usize, b: usize, len: usize) -> bool
    ensures { IsTrue result ↔ ((a ≤ b) × (b ≤ len)) }
{
    a <= b && b <= len
}
