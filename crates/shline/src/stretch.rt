//! The stretch of the source in which the reading stands, and how it moves on: where a token begins, where a
//! line of a here-document's body does, and after a piece of a word. Who finds no byte left in it calls a
//! cold function of its own that goes on and does the whole, so that the test is the one which the next read
//! makes anyway.
ghost use Rattle.std.specs.Prelude.{◌≡◌, ◌+◌, ◌≤◌};
ghost use Rattle.shline.specs.Clauses.{here_of, HoldsToken, start_of, Stays};

use crate::cursor::Cursor;
use shgrammar::{Next, Token};
use shsource::Source;

impl<'a, S: Source, const TREE: u8> Cursor<'a, S, TREE> {
    /// Where the reading stands in the text.
    #[inline(always)]
    pub(crate) fn here(&self) -> usize
        ensures { result ≡ here_of self.now }
    {
        self.begin + self.at
    }

    /// Where the token in hand begins in it.
    #[inline(always)]
    pub(crate) fn start(&self) -> usize
        ensures { result ≡ start_of self.now }
    {
        self.begin + self.next_at
    }

    /// To the stretch that begins at a place of the text, at or before the token in hand. Where the reading
    /// stood between tokens is lost.
    pub(crate) fn stretch_from(&mut self, place: usize)
        requires { place ≤ start_of self.old }
        ensures begin { self.new.begin ≡ place }
        ensures same { HoldsToken self.old self.new }
    {
        let start = self.start();
        self.front = self.source.run(self.base + place);
        self.begin = place;
        self.at = 0;
        self.next_at = start - place;
    }

    /// To the one that begins at a place of the text, here or before. No token is in hand then: the end of
    /// the text stands for one.
    #[cold]
    pub(crate) fn stretch_anew(&mut self, place: usize)
        requires { place ≤ here_of self.old }
        ensures begin { self.new.begin ≡ place }
        ensures here { here_of self.new ≡ here_of self.old }
        ensures same { Stays self.old self.new }
    {
        let here = self.here();
        self.next = Next {
            token: Token::End,
            broken: false,
        };
        self.next_at = self.source.len() - self.base - self.begin;
        self.stretch_from(place);
        self.at = here - place;
    }

    /// To the one that begins here.
    #[cold]
    pub(crate) fn go_on(&mut self)
        ensures here { here_of self.new ≡ here_of self.old }
        ensures same { Stays self.old self.new }
    {
        let here = self.here();
        self.stretch_anew(here);
    }
}
