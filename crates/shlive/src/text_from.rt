//! The rest of a text, as a text of its own.
ghost use Rattle.shtext.specs.Buffer.{buffer_bytes};
ghost use Rattle.shsource.specs.Text.{IsRun};

use shtext::{Buffer, Source};

/// The bytes of a text from an offset on.
#[derive(Clone, Copy)]
pub(crate) struct TextFrom<'a> {
    text: &'a Buffer,
    base: usize,
    /// The stretch of the text that begins there, in which most lines lie whole: its bytes are reached
    /// faster.
    front: &'a [u8],
    ghost stretch: { IsRun (buffer_bytes text.now) base front.now },
}

impl<'a> TextFrom<'a> {
    ghost use Rattle.std.specs.Prelude.{◌≡◌, drop};
    ghost use Rattle.shlive.specs.TextFrom.{text_from_bytes};

    /// The bytes of this text from an offset on.
    pub(crate) fn new(text: &'a Buffer, base: usize) -> TextFrom<'a>
        ensures { text_from_bytes result ≡ drop base (buffer_bytes text.now) }
    {
        TextFrom {
            text,
            base,
            front: text.run(base),
        }
    }

    /// A stretch that begins at any offset.
    #[cold]
    fn any_run(&self, at: usize) -> &[u8]
        ensures { IsRun (text_from_bytes self.now) at result.now }
    {
        if at < self.len() {
            self.text.run(self.base + at)
        } else {
            &[]
        }
    }
}

impl<'a> Source for TextFrom<'a> {
    ghost use Rattle.shlive.specs.TextFrom.{text_from_bytes};

    ghost bytes = { text_from_bytes };

    #[inline]
    fn len(&self) -> usize {
        self.text.len().saturating_sub(self.base)
    }

    #[inline]
    fn byte(&self, at: usize) -> Option<u8> {
        self.run(at).first().copied()
    }

    #[inline]
    fn run(&self, at: usize) -> &[u8] {
        if at < self.front.len() {
            &self.front[at..]
        } else {
            self.any_run(at)
        }
    }
}
