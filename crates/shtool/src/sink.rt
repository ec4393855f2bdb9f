//! What takes in a script that is read piece by piece.
ghost use Rattle.std.specs.Prelude.{◌≡◌, ◌+◌, ◌++◌, ◌≤◌, ℕ, List, IfOk, length};
ghost use Rattle.shtext.specs.Edit.{limit};

use std::alloc::AllocError;

/// What takes in a script that is read piece by piece.
pub trait Sink: Drop {
    /// What it was made with.
    ghost Setup: { Type 0 } = { Unit {0} };

    /// Made so, it took these bytes.
    ghost holds: { Setup → List ℕ → Self → Type 0 };

    /// Takes some more bytes that were read. Where memory runs out nothing more may be taken.
    fn take(&mut self, bytes: &[u8]) -> Result<(), AllocError>
        // So it was made, and this it took: there is room for more bytes after those.
        requires { (setup : Setup) × (read : List ℕ) × (holds setup read self.old)
            × (length read + length bytes.now ≤ limit) }
        ensures { IfOk result (λ done. (setup : Setup) (read : List ℕ) → holds setup read self.old →
            holds setup (read ++ bytes.now) self.new) };
}

impl Sink for Vec<u8> {
    ghost holds = { λ _ read text. text.items ≡ read };

    fn take(&mut self, bytes: &[u8]) -> Result<(), AllocError> {
        self.extend_from_slice(bytes)
    }
}
