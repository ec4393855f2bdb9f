//! The bytes of a text as they are read: continuations are removed (XCU 2.2.1).
ghost use Rattle.std.specs.Prelude.{◌≡◌, ◌<◌, true, false, IfSome};
ghost use Rattle.shgrammar.specs.Bytes.{byte_at, ends_word, past, past_blanks, past_byte, past_continuations, stands, stands_in};
ghost use Rattle.shgrammar.specs.Classes.{in_class, is_blank};
ghost use Rattle.shgrammar.specs.Shows.{IsRead};
ghost use Rattle.shline.specs.Clauses.{here_of, Inside, Moves, on, Reaches, seen, start_of, Steps, text_of};
ghost use Rattle.shgrammar.specs.Standing.{raw_in};

use crate::cursor::Cursor;
use shgrammar::{Class, ends_words};
use shsource::Source;

impl<'a, S: Source, const TREE: u8> Cursor<'a, S, TREE> {
    /// The place past the continuations at a place. Most often none stands there.
    #[inline(always)]
    #[tactic(auto, using(shgrammar::proofs::Stretches::joined_none))]
    pub(crate) fn place(&self, from: usize) -> usize
        requires { Inside self.now from }
        ensures { Reaches self.now past_continuations from result }
    {
        if self.continues(from) {
            return self.past_continuations(from);
        }
        from
    }

    /// The place past the continuations at a place.
    #[cold]
    #[tactic(auto, using(shgrammar::proofs::Stretches::joined_more, shgrammar::proofs::Stretches::joined_none))]
    fn past_continuations(&self, from: usize) -> usize
        requires { Inside self.now from }
        ensures { Reaches self.now past_continuations from result }
    {
        let mut at = from;
        'continuations: while self.continues(at) {
            at += 2;
        }
        at
    }

    /// The byte that is read at a place, or `None` at the end. Only after a backslash
    /// another byte may be meant.
    #[inline(always)]
    #[tactic(auto, using(shgrammar::proofs::Stretches::raw_stays))]
    pub(crate) fn byte_at(&self, at: usize) -> Option<u8>
        requires { Inside self.now at }
        ensures value { result ≡ seen self.now byte_at at }
        ensures inside { IfSome result (λ b. IsRead (text_of self.now) (on self.now at)) }
    {
        if self.raw_stands(at, b'\\') {
            return self.raw_byte(self.place(at));
        }
        self.raw_byte(at)
    }

    /// The place after the byte that is read at a place.
    #[inline(always)]
    #[tactic(auto, unfolding(shgrammar::specs::Bytes::past_byte))]
    pub(crate) fn past_byte(&self, at: usize) -> usize
        requires { Inside self.now at × IsRead (text_of self.now) (on self.now at) }
        ensures value { on self.now result ≡ seen self.now past_byte at }
        ensures past { seen self.now past_continuations at < on self.now result }
        ensures inside { (at < result) × Inside self.now result }
    {
        self.place(at) + 1
    }

    /// One byte on.
    #[inline(always)]
    pub(crate) fn bump(&mut self)
        requires { IsRead (text_of self.old) (here_of self.old) }
        ensures value { Moves self.old self.new (past_byte (text_of self.old) (here_of self.old)) }
        ensures onward { here_of self.old < here_of self.new }
        ensures past { past_continuations (text_of self.old) (here_of self.old) < here_of self.new }
    {
        let at = self.at;
        self.at = self.past_byte(at);
    }

    /// Passes the first byte of the token in hand: no continuation stands before it.
    #[inline(always)]
    #[tactic(auto, unfolding(shgrammar::specs::Bytes::past_byte, crate::specs::InHand::InHand))]
    pub(crate) fn step(&mut self)
        requires { IsRead (text_of self.old) (start_of self.old) }
        ensures { Steps self.old self.new (past_byte (text_of self.old) (start_of self.old)) }
    {
        self.at = self.next_at + 1;
    }

    /// Whether this byte is read at a place.
    #[inline(always)]
    #[tactic(auto, unfolding(shgrammar::specs::Bytes::stands))]
    pub(crate) fn stands(&self, at: usize, byte: u8) -> bool
        requires { Inside self.now at }
        ensures value { result ≡ seen self.now stands at byte }
        ensures inside { result ≡ true → IsRead (text_of self.now) (on self.now at) }
    {
        match self.byte_at(at) {
            Some(found) => found == byte,
            None => false,
        }
    }

    /// Whether a byte of this class is read at a place.
    #[inline(always)]
    #[tactic(auto, unfolding(shgrammar::specs::Bytes::stands_in))]
    pub(crate) fn stands_in(&self, at: usize, class: Class) -> bool
        requires { Inside self.now at }
        ensures value { result ≡ seen self.now (stands_in (in_class class)) at }
        ensures inside { result ≡ true → IsRead (text_of self.now) (on self.now at) }
    {
        match self.byte_at(at) {
            Some(byte) => class.has(byte),
            None => false,
        }
    }

    /// The place after the bytes of this class from a place on. Most often no
    /// continuation stands among them.
    #[inline(always)]
    #[tactic(auto, using(shgrammar::proofs::Unbroken::past_raw, shgrammar::proofs::Unbroken::past_whole, shgrammar::proofs::Unbroken::raw_stops, shgrammar::proofs::Unbroken::none_here))]
    pub(crate) fn past(&self, from: usize, class: Class) -> usize
        requires { Inside self.now from }
        ensures place { Reaches self.now (past (in_class class)) from result }
        ensures other { seen self.now (stands_in (in_class class)) result ≡ false }
    {
        let end = self.raw_past(from, class);
        if self.continues(end) {
            return self.past_joined(end, class);
        }
        end
    }

    /// The place after the bytes of this class from a place on where none stands, unless past continuations.
    #[cold]
    #[tactic(auto, using(shgrammar::proofs::Unbroken::joined_on, shgrammar::proofs::Unbroken::joined_here, shgrammar::proofs::Unbroken::raw_stops, shgrammar::proofs::Unbroken::none_here, shgrammar::proofs::Stretches::past_none))]
    fn past_joined(&self, from: usize, class: Class) -> usize
        requires { Inside self.now from × (seen self.now (raw_in (in_class class)) from ≡ false) }
        ensures place { Reaches self.now (past (in_class class)) from result }
        ensures other { seen self.now (stands_in (in_class class)) result ≡ false }
    {
        let mut at = from;
        'joined: while self.continues(at) {
            let next = self.past_continuations(at);
            if !self.raw_in(next, class) {
                return at;
            }
            at = self.raw_past(next, class);
        }
        at
    }

    /// The place where the next token begins, from one where no blank stands: after the continuations there,
    /// and the blanks among them.
    #[inline(always)]
    #[tactic(auto, using(crate::proofs::Passed::blanks_over_on, crate::proofs::Passed::no_blanks, shgrammar::proofs::Unbroken::blanks_stop_raw))]
    pub(crate) fn past_broken_blanks(&self, from: usize) -> usize
        requires { Inside self.now from × (seen self.now (raw_in is_blank) from ≡ false) }
        ensures { Reaches self.now past_blanks from result }
    {
        let mut at = from;
        'joined: while self.continues(at) {
            at = self.raw_past(at + 2, Class::Blank);
        }
        at
    }

    /// Whether a word ends at a place.
    #[inline(always)]
    #[tactic(auto, unfolding(shgrammar::specs::Bytes::ends_word))]
    pub(crate) fn ends_at(&self, at: usize) -> bool
        requires { Inside self.now at }
        ensures value { result ≡ seen self.now ends_word at }
        ensures inside { result ≡ false → IsRead (text_of self.now) (on self.now at) }
    {
        match self.byte_at(at) {
            Some(byte) => ends_words(byte),
            None => true,
        }
    }
}
