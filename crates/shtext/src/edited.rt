//! The text that a change would make.
ghost use Rattle.std.specs.Prelude.{◌+◌, ◌-◌, ◌≤◌, length};
ghost use Rattle.shtext.specs.Chunks.{joined, most};
ghost use Rattle.shtext.specs.Edit.{limit, spliced};
ghost use Rattle.shsource.specs.Text.{IsRun};

use crate::buffer::Buffer;
use crate::chunk::CHUNK;
use shsource::Source;

/// The edited text: the buffer's bytes before the change, the new bytes, and the buffer's bytes after it.
#[derive(Clone, Copy, Debug)]
pub struct Edited<'a> {
    pub(crate) buffer: &'a Buffer,
    pub(crate) new: &'a [u8],
    /// The new bytes stand in the place of those from here
    pub(crate) start: usize,
    /// up to here.
    pub(crate) end: usize,
    ghost order: { start ≤ end },
    ghost within: { end ≤ length (joined buffer.now.chunks.items) },
    ghost small: { length (spliced (joined buffer.now.chunks.items) start end new.now) ≤ limit },
}

impl<'a> Source for Edited<'a> {
    ghost use Rattle.shtext.specs.Buffer.{edited_bytes};

    ghost bytes = { edited_bytes };

    #[inline]
    fn len(&self) -> usize {
        self.buffer.len() - (self.end - self.start) + self.new.len()
    }

    #[inline]
    fn byte(&self, at: usize) -> Option<u8> {
        self.run(at).first().copied()
    }

    #[inline]
    fn run(&self, at: usize) -> &[u8]
        ensures run { IsRun (edited_bytes self.now) at result.now }
        ensures few { length result.now ≤ most }
    {
        if at < self.start {
            let run = self.buffer.run(at);
            return &run[..run.len().min(self.start - at)];
        }
        let at = at - self.start;
        if at < self.new.len() {
            let run = &self.new[at..];
            return &run[..run.len().min(CHUNK)];
        }
        let at = at - self.new.len();
        if at < self.buffer.len() - self.end {
            self.buffer.run(self.end + at)
        } else {
            &[]
        }
    }
}
