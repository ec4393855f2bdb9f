//! Words (XCU 2.3), and how far they go: their pieces in the five modes (XCU 2.2, 2.6).
ghost use Rattle.std.specs.Prelude.{◌≡◌, ◌≢◌, ◌+◌, ◌<◌, ◌≤◌, length, IfOk, List as Row, false};
ghost use Rattle.shgrammar.specs.Bytes.{ends_word};
ghost use Rattle.shgrammar.specs.Shows.{IsRead};
ghost use Rattle.shline.specs.Pieces.{PieceShows};
ghost use Rattle.shline.specs.Clauses.{here_of, IsHere, Keeps, Moves, on, Onward, PlaceToPlace, SomeRead, start_of, text_of, TokenToPlace, word_from};
ghost use Rattle.shgrammar.specs.Form.{again, step_if};
ghost use Rattle.shgrammar.specs.Pieces.{past_closer};
ghost use Rattle.shline.specs.Rows.{view_substs};
ghost use Rattle.shast.specs.Nodes.{word_span};
ghost use Rattle.shast.specs.Tree.{ASubst};
ghost use Rattle.shast.specs.View.{view_word};
ghost use Rattle.shgrammar.specs.Words.{a_piece, a_word, contents, word_so_far, holds_others, piece_row};
ghost use Rattle.shgrammar.specs.Levels.{level};

use crate::cursor::Cursor;
use crate::stop::Stop;
use shast::{Subst, Word};
use shgrammar::{FaultKind, Mode, Piece};
use shmake::make::word_of;
use shsource::Source;

impl<'a, S: Source, const TREE: u8> Cursor<'a, S, TREE> {
    /// What closes a construct of this mode, from its place on; nothing closes a word.
    #[tactic(auto, unfolding(shgrammar::specs::Bytes::past_byte), using(shgrammar::proofs::Stretches::place_low))]
    fn close(&mut self, mode: Mode, here: usize)
        requires here { IsHere self.old here }
        requires first { mode ≢ Mode.Plain → on self.old here < length (text_of self.old) }
        requires second { mode ≡ Mode.Arith → IsRead (text_of self.old) (on self.old here + 1) }
        ensures { Moves self.old self.new (past_closer (text_of self.old) mode (here_of self.old)) }
    {
        match mode {
            Mode::Plain => {}
            Mode::Double | Mode::Brace | Mode::DoubleBrace => self.at = here + 1,
            Mode::Arith => self.at = self.past_byte(here + 1),
        }
    }

    /// A construct, from just after its opener to just past its closer. Most often it holds
    /// plain bytes alone, and in double quotes a `$` before a name, which is ordinary:
    /// what takes every piece is called for the others.
    #[cycle(commands)]
    #[inline(always)]
    #[tactic(auto, unfolding(shgrammar::specs::Bytes::past_byte), using(shgrammar::proofs::Levels::level_closed, shgrammar::proofs::PlainBytes::plain_begin, shgrammar::proofs::PlainBytes::closed_here, shgrammar::proofs::PlainBytes::ordinary_here, shgrammar::proofs::Stretches::place_low))]
    fn construct(
        &mut self,
        mode: Mode,
        opener: usize,
        substs: &mut Vec<Subst>,
        room: usize,
    ) -> Result<(), Stop>
        requires { opener ≤ here_of self.old }
        ensures { PlaceToPlace self.old ((level room).construct mode (self.old.origin + opener)
            (view_substs substs.old)) result (λ _. view_substs substs.new) self.new }
    {
        if room == 0 {
            return Err(self.wrong_at(FaultKind::TooDeep, opener));
        }
        self.skip_plain(mode);
        'ordinary: loop {
            let at = self.at;
            let here = self.place(at);
            match self.piece(mode, 0, here) {
                Piece::Closer => {
                    self.close(mode, here);
                    return Ok(());
                }
                Piece::Ordinary if mode == Mode::Double => {
                    self.at = here + 1;
                    self.skip_plain(mode);
                }
                _ => return self.contents(mode, opener, substs, room - 1),
            }
        }
    }

    /// A piece that holds no others, or the fault that it is.
    #[inline(always)]
    #[tactic(auto, unfolding(shgrammar::specs::Pieces::past_taken, shgrammar::specs::Bytes::past_byte), using(shgrammar::proofs::Stretches::place_low))]
    fn closed_piece(
        &mut self,
        piece: Piece,
        mode: Mode,
        opener: usize,
        nested: &mut usize,
        here: usize,
    ) -> Result<(), Stop>
        requires closed { (holds_others piece ≡ false) × IsHere self.old here }
        requires shows { PieceShows mode nested.old piece (text_of self.old) (on self.old here) }
        requires before { (opener ≤ here_of self.old) × (nested.old ≤ here_of self.old) }
        ensures value { (ss : Row ASubst) → PlaceToPlace self.old
            (piece_row (level 0) mode (self.old.origin + opener) (word_so_far nested.old ss) piece)
            result (λ _. again (word_so_far nested.new ss)) self.new }
        ensures onward { IfOk result (λ _. here_of self.old < here_of self.new) }
        ensures nested { IfOk result (λ _. nested.new ≤ here_of self.new) }
        ensures same { Keeps self.old self.new }
    {
        match piece {
            Piece::Missing => return Err(self.wrong_at(mode.unclosed(), opener)),
            Piece::LoneBackslash => {
                let place = self.begin + here;
                return Err(self.wrong_at(FaultKind::LoneBackslash, place));
            }
            Piece::BadClose => {
                let place = self.begin + here;
                return Err(self.wrong_at(FaultKind::BadArithClose, place));
            }
            Piece::Escape => self.at = here + 2,
            Piece::Single => self.single(here)?,
            Piece::DollarSingle => self.dollar_single(here)?,
            Piece::Backquote => self.backquoted_text(here)?,
            Piece::Open => {
                *nested += 1;
                self.at = here + 1;
            }
            Piece::Close => {
                *nested -= 1;
                self.at = here + 1;
            }
            Piece::Pid => self.at = self.past_byte(here + 1),
            // an ordinary byte: by the contract nothing else is left
            _ => self.at = here + 1,
        }
        Ok(())
    }

    /// One piece, with so many brackets open in arithmetic. Answers whether there was
    /// one: if not, the construct ends here.
    #[cycle(commands)]
    #[inline(always)]
    #[tactic(auto, unfolding(shgrammar::specs::Words::a_piece, shgrammar::specs::Pieces::piece_at, shgrammar::specs::Bytes::ends_word))]
    fn take_piece(
        &mut self,
        mode: Mode,
        opener: usize,
        nested: &mut usize,
        substs: &mut Vec<Subst>,
        room: usize,
    ) -> Result<bool, Stop>
        requires before { (opener ≤ here_of self.old) × (nested.old ≤ here_of self.old) }
        ensures value { PlaceToPlace self.old
            (a_piece (level room) mode (self.old.origin + opener) (word_so_far
            nested.old (view_substs substs.old))) result
            (λ more. step_if more (word_so_far nested.new
            (view_substs substs.new))) self.new }
        ensures onward { IfOk result (Onward (here_of self.old) (here_of self.new)) }
        ensures nested { IfOk result (λ more. nested.new ≤ here_of self.new) }
        ensures some { IfOk result (λ more. SomeRead self.old mode self.new) }
    {
        // Most pieces are the last of their word.
        let at = self.at;
        if mode == Mode::Plain && self.ends_at(at) {
            return Ok(false);
        }
        self.some_piece(mode, opener, nested, substs, room)
    }

    /// The same, where the piece is still to be told.
    #[cycle(commands)]
    #[tactic(auto, unfolding(shgrammar::specs::Words::a_piece, shgrammar::specs::Pieces::past_taken, shgrammar::specs::Bytes::past_byte), using(shgrammar::proofs::Stretches::place_low))]
    fn some_piece(
        &mut self,
        mode: Mode,
        opener: usize,
        nested: &mut usize,
        substs: &mut Vec<Subst>,
        room: usize,
    ) -> Result<bool, Stop>
        requires before { (opener ≤ here_of self.old) × (nested.old ≤ here_of self.old) }
        ensures value { PlaceToPlace self.old
            (a_piece (level room) mode (self.old.origin + opener) (word_so_far
            nested.old (view_substs substs.old))) result
            (λ more. step_if more (word_so_far nested.new
            (view_substs substs.new))) self.new }
        ensures onward { IfOk result (Onward (here_of self.old) (here_of self.new)) }
        ensures nested { IfOk result (λ more. nested.new ≤ here_of self.new) }
        ensures some { IfOk result (λ more. SomeRead self.old mode self.new) }
    {
        let at = self.at;
        let here = self.place(at);
        let piece = self.piece(mode, *nested, here);
        let place = self.begin + here;
        match piece {
            Piece::Closer => {
                self.close(mode, here);
                return Ok(false);
            }
            Piece::Double => {
                self.at = here + 1;
                self.construct(Mode::Double, place, substs, room)?;
            }
            Piece::Subst => {
                self.at = self.past_byte(here + 1);
                self.substitution(place, substs, room)?;
            }
            Piece::Arith => {
                self.at = self.past_byte(self.past_byte(here + 1));
                self.construct(Mode::Arith, place, substs, room)?;
            }
            Piece::Param => {
                self.at = self.past_byte(here + 1);
                self.parameter();
                let rest = self.rest_mode(mode);
                self.construct(rest, place, substs, room)?;
            }
            _ => self.closed_piece(piece, mode, opener, nested, here)?,
        }
        Ok(true)
    }

    /// What a construct holds, up to its end.
    #[cycle(commands)]
    #[tactic(auto, unfolding(shgrammar::specs::Words::contents), using(shgrammar::proofs::Turns::many_done, crate::proofs::Stops::contents_stop, shgrammar::proofs::PlainBytes::piece_and_plain))]
    fn contents(
        &mut self,
        mode: Mode,
        opener: usize,
        substs: &mut Vec<Subst>,
        room: usize,
    ) -> Result<(), Stop>
        requires { opener ≤ here_of self.old }
        ensures value { PlaceToPlace self.old (contents (level room) mode (self.old.origin + opener)
            (view_substs substs.old)) result (λ _. view_substs substs.new) self.new }
        ensures some { IfOk result (λ _. SomeRead self.old mode self.new) }
    {
        let mut nested = 0;
        'pieces: while self.take_piece(mode, opener, &mut nested, substs, room)? {
            self.skip_plain(mode);
        }
        Ok(())
    }

    /// The word that begins here. Most words are plain bytes alone.
    #[cycle(commands)]
    #[inline(always)]
    #[tactic(auto, using(shgrammar::proofs::PlainBytes::plain_word, shgrammar::proofs::PlainBytes::word_rest, crate::proofs::Stops::word_stops, shgrammar::proofs::Places::word_longer))]
    pub(crate) fn word(&mut self, room: usize) -> Result<Word, Stop>
        requires { ends_word (text_of self.old) (start_of self.old) ≡ false }
        ensures value { TokenToPlace self.old (a_word (level room)) result view_word self.new }
        ensures onward { IfOk result (λ _. start_of self.old < here_of self.new) }
        ensures start { IfOk result
            (λ x. (word_span (view_word x)).start ≡ self.old.origin + start_of self.old) }
    {
        let start = self.start();
        let mut substs = Vec::new(self.alloc);
        self.at = self.next_at;
        self.skip_plain(Mode::Plain);
        let at = self.at;
        if !self.ends_at(at) {
            self.contents(Mode::Plain, start, &mut substs, room)?;
        }
        Ok(self.word_from(start, substs))
    }

    /// The word from a place of the text to here, with these substitutions.
    #[inline(always)]
    fn word_from(&self, start: usize, substs: Vec<Subst>) -> Word
        requires { start ≤ here_of self.now }
        ensures { view_word result ≡ word_from self.now.origin start self.now substs }
    {
        word_of(self.span_from(start), substs)
    }
}
