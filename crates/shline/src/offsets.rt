//! Places, as spans and faults tell them: offsets.
ghost use Rattle.std.specs.Prelude.{◌≡◌, ◌+◌, ◌≤◌, length};
ghost use Rattle.shline.specs.Clauses.{here_of, text_of};
ghost use Rattle.shgrammar.specs.Comments.{span};

use crate::cursor::Cursor;
use crate::stop::Stop;
use shast::Span;
use shgrammar::{Fault, FaultKind};
use shsource::Source;

impl<'a, S: Source, const TREE: u8> Cursor<'a, S, TREE> {
    /// What stops the reading at a place of the text.
    pub(crate) fn wrong_at(&self, kind: FaultKind, place: usize) -> Stop
        requires { place ≤ length (text_of self.now) }
        ensures { result ≡ Stop.Wrong (record { kind = kind; at = self.now.origin + place }) }
    {
        Stop::Wrong(Fault {
            kind,
            at: self.origin + place,
        })
    }

    /// The span from a place of the text to here.
    #[inline(always)]
    pub(crate) fn span_from(&self, start: usize) -> Span
        requires { start ≤ here_of self.now }
        ensures { result ≡ span self.now.origin start (here_of self.now) }
    {
        Span {
            start: self.origin + start,
            end: self.origin + self.here(),
        }
    }
}
