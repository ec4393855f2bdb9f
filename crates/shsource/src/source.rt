//! Texts that tell one list of bytes, whether they lie in one piece or in many.
ghost use Rattle.std.specs.Prelude.{◌≡◌, ℕ, List, length, slice_get};
ghost use Rattle.shsource.specs.Text.{IsRun, flat_bytes};

/// A text: one list of bytes, which is read by the byte or by stretches.
pub trait Source {
    /// The bytes.
    ghost bytes: { Self → List ℕ };

    /// How many bytes there are.
    fn len(&self) -> usize
        ensures { result ≡ length (bytes self.now) };

    /// The byte at an offset, or `None` at or past the end.
    fn byte(&self, at: usize) -> Option<u8>
        ensures { result ≡ slice_get (bytes self.now) at };

    /// A stretch that begins at an offset. It is empty only at or past the end.
    fn run(&self, at: usize) -> &[u8]
        ensures { IsRun (bytes self.now) at result.now };
}

/// A text whose bytes lie in one slice.
#[derive(Clone, Copy, Debug)]
pub struct Flat<'a> {
    bytes: &'a [u8],
}

impl<'a> Flat<'a> {
    /// The text of these bytes.
    pub fn new(bytes: &'a [u8]) -> Flat<'a>
        ensures { flat_bytes result ≡ bytes.now }
    {
        Flat { bytes }
    }
}

impl<'a> Source for Flat<'a> {
    ghost bytes = { flat_bytes };

    #[inline]
    fn len(&self) -> usize {
        self.bytes.len()
    }

    #[inline]
    fn byte(&self, at: usize) -> Option<u8> {
        self.bytes.get(at).copied()
    }

    #[inline]
    fn run(&self, at: usize) -> &[u8] {
        if at < self.bytes.len() {
            &self.bytes[at..]
        } else {
            &[]
        }
    }
}
