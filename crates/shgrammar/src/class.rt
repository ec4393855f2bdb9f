//! Classes of bytes (XCU 2.2, 2.3, 2.5.2, 2.10.1).
ghost use Rattle.std.specs.Prelude.{◌≡◌};
ghost use Rattle.shgrammar.specs.Classes.{in_class};

use crate::byte_kinds::is_in_names;

/// A set of bytes.
#[derive(Clone, Copy)]
pub enum Class {
    Blank,
    Digit,
    /// A letter, a digit or an underscore, all ASCII.
    Name,
    Tab,
}

impl Class {
    /// Whether a byte is of this class.
    pub fn has(self, byte: u8) -> bool
        ensures { result ≡ in_class self byte }
    {
        match self {
            Class::Blank => byte == b' ' || byte == b'\t',
            Class::Digit => byte.is_ascii_digit(),
            Class::Name => is_in_names(byte),
            Class::Tab => byte == b'\t',
        }
    }
}
