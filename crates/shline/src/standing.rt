//! The bytes of a text as they stand, continuations and all.
ghost use Rattle.std.specs.Prelude.{◌≡◌, ◌+◌, ◌<◌, length, slice_get, true, false, IfSome, IsSome};
ghost use Rattle.shgrammar.specs.Classes.{in_class};
ghost use Rattle.shline.specs.Clauses.{Inside, on, Reaches, seen, text_of};
ghost use Rattle.shgrammar.specs.Standing.{raw_past, at_end, continues, passes, raw_in, raw_stands};
ghost use Rattle.shsource.specs.Text.{IsRun};

use crate::cursor::Cursor;
use shgrammar::Class;
use shsource::Source;

/// Whether there is a byte, and it is of this class.
#[inline(always)]
fn is_in(byte: Option<u8>, class: Class) -> bool
    ensures value { result ≡ passes (in_class class) byte }
    ensures some { result ≡ true → IsSome byte }
{
    match byte {
        Some(byte) => class.has(byte),
        None => false,
    }
}

impl<'a, S: Source, const TREE: u8> Cursor<'a, S, TREE> {
    /// The byte at a place as it stands, or `None` at the end.
    #[inline(always)]
    #[tactic(auto, using(shgrammar::proofs::Runs::front_byte, shgrammar::proofs::Runs::front_within))]
    pub(crate) fn raw_byte(&self, at: usize) -> Option<u8>
        requires { Inside self.now at }
        ensures value { result ≡ seen self.now slice_get at }
        ensures inside { IfSome result (λ b. on self.now at < length (text_of self.now)) }
    {
        if at < self.front.len() {
            return Some(self.front[at]);
        }
        self.byte_after(at)
    }

    /// The same, where it stands past the front.
    #[cold]
    #[tactic(auto, using(shgrammar::proofs::Stretches::get_drop))]
    fn byte_after(&self, at: usize) -> Option<u8>
        requires { Inside self.now at }
        ensures value { result ≡ seen self.now slice_get at }
        ensures inside { IfSome result (λ b. on self.now at < length (text_of self.now)) }
    {
        self.source.byte(self.base + self.begin + at)
    }

    /// The stretch that begins at a place. Most often it is a part of the front.
    #[inline(always)]
    #[tactic(auto, using(crate::proofs::Front::front_run_on))]
    pub(crate) fn run_at(&self, at: usize) -> &[u8]
        requires { Inside self.now at }
        ensures { IsRun (S.bytes self.now.source.now) (self.now.base + on self.now at) result.now }
    {
        if at < self.front.len() {
            return &self.front[at..];
        }
        self.source.run(self.base + (self.begin + at))
    }

    /// Whether this byte is the one at a place.
    #[inline(always)]
    #[tactic(auto, unfolding(shgrammar::specs::Standing::raw_stands))]
    pub(crate) fn raw_stands(&self, at: usize, byte: u8) -> bool
        requires { Inside self.now at }
        ensures value { result ≡ seen self.now raw_stands at byte }
        ensures inside { result ≡ true → on self.now at < length (text_of self.now) }
    {
        match self.raw_byte(at) {
            Some(found) => found == byte,
            None => false,
        }
    }

    /// Whether the byte at a place is of this class.
    #[inline(always)]
    #[tactic(auto, unfolding(shgrammar::specs::Standing::raw_in))]
    pub(crate) fn raw_in(&self, at: usize, class: Class) -> bool
        requires { Inside self.now at }
        ensures value { result ≡ seen self.now (raw_in (in_class class)) at }
        ensures inside { result ≡ true → on self.now at < length (text_of self.now) }
    {
        match self.raw_byte(at) {
            Some(byte) => class.has(byte),
            None => false,
        }
    }

    /// Whether the text ends at a place.
    #[inline(always)]
    #[tactic(auto, unfolding(shgrammar::specs::Standing::at_end))]
    pub(crate) fn at_end(&self, at: usize) -> bool
        requires { Inside self.now at }
        ensures value { result ≡ seen self.now at_end at }
        ensures inside { result ≡ false → on self.now at < length (text_of self.now) }
    {
        self.raw_byte(at).is_none()
    }

    /// Whether a continuation stands at a place.
    #[inline(always)]
    #[tactic(auto, unfolding(shgrammar::specs::Standing::continues))]
    pub(crate) fn continues(&self, at: usize) -> bool
        requires { Inside self.now at }
        ensures value { result ≡ seen self.now continues at }
        ensures inside { result ≡ true → Inside self.now (at + 2) }
    {
        self.raw_stands(at, b'\\') && self.raw_stands(at + 1, b'\n')
    }

    /// The same, where the byte there is known.
    #[inline(always)]
    #[tactic(auto, unfolding(shgrammar::specs::Standing::continues, shgrammar::specs::Standing::raw_stands))]
    pub(crate) fn continues_with(&self, at: usize, byte: Option<u8>) -> bool
        requires { Inside self.now at × (byte ≡ seen self.now slice_get at) }
        ensures { result ≡ seen self.now continues at }
    {
        match byte {
            Some(b'\\') => self.continues(at),
            _ => false,
        }
    }

    /// The place after the bytes of this class that stand from a place on, and the byte there, or `None` at
    /// the end. Most often there are none or one: a test for each is foretold better than a loop.
    #[inline(always)]
    #[tactic(auto, unfolding(shgrammar::specs::Standing::raw_in), using(shgrammar::proofs::Stretches::raw_none, crate::proofs::Passed::raw_one_on, crate::proofs::Passed::raw_two_on))]
    pub(crate) fn raw_past_and_byte(&self, from: usize, class: Class) -> (usize, Option<u8>)
        requires { Inside self.now from }
        ensures place { Reaches self.now (raw_past (in_class class)) from result.0 }
        ensures byte { result.1 ≡ seen self.now slice_get result.0 }
    {
        let first = self.raw_byte(from);
        if !is_in(first, class) {
            return (from, first);
        }
        let second = self.raw_byte(from + 1);
        if !is_in(second, class) {
            return (from + 1, second);
        }
        let end = self.raw_past_by_byte(from + 2, class);
        (end, self.raw_byte(end))
    }

    /// The place after them alone.
    #[inline(always)]
    pub(crate) fn raw_past(&self, from: usize, class: Class) -> usize
        requires { Inside self.now from }
        ensures { Reaches self.now (raw_past (in_class class)) from result }
    {
        self.raw_past_and_byte(from, class).0
    }

    /// The same, byte by byte.
    #[inline(always)]
    #[tactic(auto, using(shgrammar::proofs::Stretches::raw_more, shgrammar::proofs::Stretches::raw_none))]
    fn raw_past_by_byte(&self, from: usize, class: Class) -> usize
        requires { Inside self.now from }
        ensures { Reaches self.now (raw_past (in_class class)) from result }
    {
        let mut at = from;
        'bytes: while self.raw_in(at, class) {
            at += 1;
        }
        at
    }
}
