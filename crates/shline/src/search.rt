//! Searches: the next place in a text where a byte stands, or one of two.
ghost use Rattle.std.specs.Prelude.{◌≡◌, ◌≤◌, length};
ghost use Rattle.memchr.specs.Find.{IsFirstByte};
ghost use Rattle.shgrammar.specs.Characters.{apostrophe};
ghost use Rattle.shline.specs.Sought.{is_sought};
ghost use Rattle.shline.specs.Clauses.{Inside, Reaches};
ghost use Rattle.shgrammar.specs.Standing.{next_of, next_such};

use crate::cursor::Cursor;
use memchr::{memchr, memchr2};
use shsource::Source;

/// How many bytes of text in single quotes are looked at before it is searched.
const NEAR: usize = 8;

/// What a search looks for.
#[derive(Clone, Copy)]
pub(crate) enum Sought {
    Byte(u8),
    /// The one or the other.
    Either(u8, u8),
}

impl Sought {
    /// The first place in a run.
    #[inline(always)]
    fn first_in(self, run: &[u8]) -> Option<usize>
        ensures { IsFirstByte (is_sought self) run.now result }
    {
        match self {
            Sought::Byte(byte) => memchr(byte, run),
            Sought::Either(one, other) => memchr2(one, other, run),
        }
    }
}

/// The next offset from an offset on where a byte that is sought stands, or the length.
#[inline(always)]
#[tactic(auto, using(crate::proofs::Searches::such_found, crate::proofs::Searches::such_passed, crate::proofs::Searches::such_end))]
pub(crate) fn find_in<S: Source>(source: &S, from: usize, sought: Sought) -> usize
    requires { from ≤ length (S.bytes source.now) }
    ensures value { result ≡ next_such (is_sought sought) (S.bytes source.now) from }
    ensures inside { (from ≤ result) × (result ≤ length (S.bytes source.now)) }
{
    let end = source.len();
    let mut at = from;
    'runs: while at < end {
        let run = source.run(at);
        if let Some(index) = sought.first_in(run) {
            return at + index;
        }
        at += run.len();
    }
    at
}

impl<'a, S: Source, const TREE: u8> Cursor<'a, S, TREE> {
    /// The next place from a place on where a byte that is sought stands, or the end.
    #[inline]
    #[tactic(auto, using(crate::proofs::Searches::such_found))]
    pub(crate) fn find(&self, sought: Sought, from: usize) -> usize
        requires { Inside self.now from }
        ensures { Reaches self.now (next_such (is_sought sought)) from result }
    {
        if from < self.front.len()
            && let Some(index) = sought.first_in(&self.front[from..])
        {
            return from + index;
        }
        self.find_after(sought, from)
    }

    /// The same, where it may stand past the front.
    #[cold]
    fn find_after(&self, sought: Sought, from: usize) -> usize
        requires { Inside self.now from }
        ensures { Reaches self.now (next_such (is_sought sought)) from result }
    {
        let begin = self.base + self.begin;
        find_in(self.source, begin + from, sought) - begin
    }

    /// The next single quote from a place on, or the end. The nearest bytes are looked at one by one, since a
    /// search costs more to begin than most text in single quotes is long.
    #[inline(always)]
    #[tactic(auto, using(crate::proofs::Searches::byte_passed, crate::proofs::Searches::byte_here, crate::proofs::Searches::byte_end))]
    pub(crate) fn next_quote(&self, from: usize) -> usize
        requires { Inside self.now from }
        ensures { Reaches self.now (next_of apostrophe) from result }
    {
        let mut at = from;
        'near: for _ in 0..NEAR {
            if self.at_end(at) || self.raw_stands(at, b'\'') {
                return at;
            }
            at += 1;
        }
        self.find(Sought::Byte(b'\''), at)
    }
}
