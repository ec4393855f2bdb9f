//! A text that a source tells in pieces, as one whose bytes lie in many.
ghost use Rattle.std.specs.Prelude.{◌<◌};

use shtext::Source;

/// Bytes that are told in pieces of one size.
#[derive(Clone, Copy)]
pub struct InPieces<'a> {
    bytes: &'a [u8],
    /// How many bytes the first piece has; where there is none, a piece begins at each byte.
    first: Option<usize>,
    /// How many bytes a piece has beside one.
    more: u16,
}

impl<'a> InPieces<'a> {
    /// These bytes, cut after so many and then after each `more + 1`.
    pub fn cut(bytes: &'a [u8], first: usize, more: u16) -> InPieces<'a> {
        InPieces {
            bytes,
            first: Some(first),
            more,
        }
    }

    /// These bytes, of which `more + 1` are told from each one on.
    pub fn from_each(bytes: &'a [u8], more: u16) -> InPieces<'a> {
        InPieces {
            bytes,
            first: None,
            more,
        }
    }

    /// How many bytes a piece has from an offset on.
    fn left(&self, at: usize) -> usize
        ensures { 0 < result }
    {
        let size = self.more as usize + 1;
        match self.first {
            None => size,
            Some(first) if at < first => first - at,
            Some(first) => size - (at - first) % size,
        }
    }
}

impl<'a> Source for InPieces<'a> {
    ghost bytes = { λ text. text.bytes.now };

    fn len(&self) -> usize {
        self.bytes.len()
    }

    fn byte(&self, at: usize) -> Option<u8> {
        self.bytes.get(at).copied()
    }

    fn run(&self, at: usize) -> &[u8] {
        if self.bytes.len() <= at {
            return &[];
        }
        let rest = &self.bytes[at..];
        let left = self.left(at);
        if rest.len() <= left {
            rest
        } else {
            &rest[..left]
        }
    }
}
