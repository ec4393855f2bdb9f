//! What is held of a script that is read to its end, and what is found in it.
ghost use Rattle.std.specs.Prelude.{◌+◌, ◌≤◌, length};
ghost use Rattle.shtext.specs.Edit.{limit};

use shread::{Edition, Fault};

/// What was read of a script.
#[derive(Drop)]
pub struct PartialScript {
    /// By which it is read.
    pub(crate) edition: Edition,
    /// What is not passed.
    pub(crate) text: Vec<u8>,
    /// How many bytes are passed.
    pub(crate) passed: usize,
    /// How many newlines they have.
    pub(crate) newlines: usize,
    /// No more is passed: the lines are long, and one that goes on would be read again and again.
    pub(crate) long: bool,
    ghost fits: { passed + length text.items ≤ limit },
    ghost counted: { newlines ≤ passed },
}

/// A fault, and where it stands.
#[derive(Clone, Copy, Debug)]
pub struct LocatedFault {
    pub fault: Fault,
    pub line: usize,
    pub col: usize,
}
