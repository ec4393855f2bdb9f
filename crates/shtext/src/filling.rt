//! What chunks are filled with.
ghost use Rattle.std.specs.Prelude.{◌+◌, ◌≤◌, length};
ghost use Rattle.shtext.specs.Edit.{limit};

use shsource::Source;

/// What is to stand in the chunks that give way to an edit: their bytes before it, the new
/// ones, and their bytes after it.
#[derive(Clone, Copy, Debug)]
pub(crate) struct Filling<'a> {
    head: &'a [u8],
    new: &'a [u8],
    tail: &'a [u8],
    ghost small: { length head.now + (length new.now + length tail.now) ≤ limit },
}

impl<'a> Filling<'a> {
    ghost use Rattle.std.specs.Prelude.{◌≡◌, ◌++◌, drop, take};
    ghost use Rattle.shtext.specs.Buffer.{filling_bytes};

    /// The new bytes, with so many of some others before them, and the rest of those after.
    pub(crate) fn new(around: &'a [u8], head: usize, new: &'a [u8]) -> Filling<'a>
        requires within { head ≤ length around.now }
        requires small { length around.now + length new.now ≤ limit }
        ensures { filling_bytes result ≡ take head around.now ++ (new.now ++ drop head around.now) }
    {
        let (head, tail) = around.split_at(head);
        Filling { head, new, tail }
    }
}

impl<'a> Source for Filling<'a> {
    ghost use Rattle.shtext.specs.Buffer.{filling_bytes};

    ghost bytes = { filling_bytes };

    fn len(&self) -> usize {
        self.head.len() + (self.new.len() + self.tail.len())
    }

    fn byte(&self, at: usize) -> Option<u8> {
        self.run(at).first().copied()
    }

    fn run(&self, at: usize) -> &[u8] {
        if at < self.head.len() {
            return &self.head[at..];
        }
        let at = at - self.head.len();
        if at < self.new.len() {
            return &self.new[at..];
        }
        let at = at - self.new.len();
        if at < self.tail.len() {
            &self.tail[at..]
        } else {
            &[]
        }
    }
}
