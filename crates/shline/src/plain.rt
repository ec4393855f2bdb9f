//! Bytes that are ordinary in a mode, many at once.
ghost use Rattle.shline.specs.Clauses.{Skips};

use crate::cursor::Cursor;
use crate::sets::plain_front;
use shgrammar::Mode;
use shsource::Source;

impl<'a, S: Source, const TREE: u8> Cursor<'a, S, TREE> {
    /// Passes the bytes from here on that are ordinary in a mode, or some of them.
    #[inline(always)]
    pub(crate) fn skip_plain(&mut self, mode: Mode)
        ensures { Skips self.old mode self.new }
    {
        if self.at >= self.front.len() {
            return self.skip_plain_after(mode);
        }
        self.skip_plain_near(mode)
    }

    /// The same, where the stretch has no byte from here on.
    #[cold]
    #[inline(never)]
    fn skip_plain_after(&mut self, mode: Mode)
        ensures { Skips self.old mode self.new }
    {
        self.go_on();
        self.skip_plain_near(mode)
    }

    /// The same, in the stretch.
    #[inline(always)]
    fn skip_plain_near(&mut self, mode: Mode)
        ensures { Skips self.old mode self.new }
    {
        let at = self.at;
        self.at = at + plain_front(self.run_at(at), mode);
    }
}
