//! Comments (XCU 2.3, rule 9).
ghost use Rattle.std.specs.Prelude.{◌≡◌, ◌<◌, ◌≤◌, false, option_map, IfSome};
ghost use Rattle.shline.specs.Clauses.{here_of, HoldsToken, Inside, on, seen, start_of, text_of};
ghost use Rattle.shgrammar.specs.Comments.{comment_at, past_comment};
ghost use Rattle.shgrammar.specs.Classes.{is_blank};
ghost use Rattle.shgrammar.specs.Standing.{before_blanks, raw_in};
ghost use Rattle.shast.specs.View.{view_comment};

use crate::cursor::Cursor;
use crate::search::Sought;
use shast::{Comment, Span};
use shgrammar::Class;
use shsource::Source;

impl<'a, S: Source, const TREE: u8> Cursor<'a, S, TREE> {
    /// The place after the last byte before `end` that is no blank; at `from` one stands.
    #[tactic(auto, using(crate::proofs::Comments::blanks_before_on, crate::proofs::Comments::no_blanks_before_on))]
    fn before_blanks(&self, from: usize, end: usize) -> usize
        requires { (seen self.now (raw_in is_blank) from ≡ false) × (from < end) × Inside
            self.now end }
        ensures value { on self.now result ≡ seen self.now before_blanks end }
        ensures inside { result ≤ end }
    {
        let mut at = end;
        'blanks: while from < at && self.raw_in(at - 1, Class::Blank) {
            at -= 1;
        }
        at
    }

    /// Passes the comment in hand, if one is.
    #[inline]
    #[tactic(auto, unfolding(shgrammar::specs::Comments::comment_at, shgrammar::specs::Comments::past_comment))]
    pub(crate) fn comment_at(&mut self) -> Option<Comment>
        ensures value { option_map view_comment result ≡ comment_at (text_of self.old)
            self.old.origin (start_of self.old) }
        ensures place { IfSome result (λ c. here_of self.new ≡ past_comment (text_of self.old)
            (start_of self.old)) }
        ensures onward { IfSome result (λ c. start_of self.old ≤ here_of self.new) }
        ensures same { HoldsToken self.old self.new }
    {
        let at = self.next_at;
        if !self.raw_stands(at, b'#') {
            return None;
        }
        let next_newline = self.find(Sought::Byte(b'\n'), at);
        let span = Span {
            start: self.origin + (self.begin + at),
            end: self.origin + (self.begin + self.before_blanks(at, next_newline)),
        };
        self.at = next_newline;
        Some(Comment { span })
    }
}
