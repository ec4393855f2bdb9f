//! Which piece of a word begins at a place, and the pieces that hold no others (XCU 2.2, 2.6).
ghost use Rattle.std.specs.Prelude.{◌≡◌, ◌≢◌, ◌⊎◌, ◌+◌, ◌<◌, ◌≤◌, IfOk, Some, false};
ghost use Rattle.shgrammar.specs.Characters.{right_parenthesis};
ghost use Rattle.shgrammar.specs.Bytes.{ends, ends_word, past_byte, stands};
ghost use Rattle.shgrammar.specs.Shows.{IsRead};
ghost use Rattle.shline.specs.Pieces.{PieceShows};
ghost use Rattle.shline.specs.Clauses.{ByteHere, here_of, Inside, IsHere, Moves, on, PlaceToPlace, text_of};
ghost use Rattle.shgrammar.specs.Form.{many, step_if};
ghost use Rattle.shgrammar.specs.Pieces.{bracket_by, byte_by, dollar_at, past_parameter, piece_at, piece_in, rest_mode};
ghost use Rattle.shgrammar.specs.Words.{backquoted_text, dollar_single, escaped_turn, single};

use crate::cursor::Cursor;
use crate::search::Sought;
use crate::stop::Stop;
use shgrammar::{Class, Escaping, FaultKind, Mode, Piece, ends_words};
use shsource::Source;

impl<'a, S: Source, const TREE: u8> Cursor<'a, S, TREE> {
    /// What the `$` at a place begins.
    #[inline(always)]
    #[tactic(auto, unfolding(shgrammar::specs::Pieces::dollar_at, shgrammar::specs::Bytes::past_byte, shgrammar::specs::Bytes::stands))]
    fn dollar(&self, here: usize) -> Piece
        requires here { ByteHere self.now here }
        ensures value { result ≡ dollar_at (text_of self.now) (here_of self.now) }
        ensures second { (result ≡ Piece.Pid) ⊎ (result ≡ Piece.Subst) ⊎ (result ≡ Piece.Arith) ⊎
            (result ≡ Piece.Param) ⊎ (result ≡ Piece.DollarSingle) → IsRead (text_of self.now) (on
            self.now here + 1) }
        ensures third { result ≡ Piece.Arith →
            IsRead (text_of self.now) (past_byte (text_of self.now)
            (on self.now here + 1)) }
        ensures kinds { (result ≢ Piece.Closer) × (result ≢ Piece.Missing) × (result ≢ Piece.Escape)
            × (result ≢ Piece.Close) }
    {
        let next = here + 1;
        match self.byte_at(next) {
            Some(b'$') => Piece::Pid,
            Some(b'(') => {
                if self.stands(self.past_byte(next), b'(') {
                    Piece::Arith
                } else {
                    Piece::Subst
                }
            }
            Some(b'{') => Piece::Param,
            Some(b'\'') => Piece::DollarSingle,
            _ => Piece::Ordinary,
        }
    }

    /// What the `)` at a place is in arithmetic with so many brackets open.
    #[inline(always)]
    #[tactic(auto, unfolding(shgrammar::specs::Bytes::past_byte))]
    fn bracket(&self, nested: usize, here: usize) -> Piece
        requires here { ByteHere self.now here }
        ensures value { result ≡ bracket_by nested (stands (text_of self.now) (past_byte (text_of
            self.now) (here_of self.now)) right_parenthesis) }
        ensures shows { PieceShows Mode.Arith nested result (text_of self.now) (on self.now here) }
    {
        if nested > 0 {
            return Piece::Close;
        }
        if self.stands(here + 1, b')') {
            Piece::Closer
        } else {
            Piece::BadClose
        }
    }

    /// The piece that a byte begins which is no backslash, no backquote and no `$`.
    #[inline(always)]
    fn byte_piece(&self, mode: Mode, nested: usize, byte: u8, here: usize) -> Piece
        requires here { ByteHere self.now here }
        ensures value { result ≡ byte_by (text_of self.now) (here_of self.now) mode nested byte }
        ensures shows { PieceShows mode nested result (text_of self.now) (on self.now here) }
        ensures word { mode ≡ Mode.Plain → ends (Some byte) ≡ false → result ≢ Piece.Closer }
    {
        match byte {
            b'"' => match mode {
                Mode::Plain | Mode::Brace | Mode::DoubleBrace => Piece::Double,
                Mode::Double => Piece::Closer,
                Mode::Arith => Piece::Ordinary,
            },
            b'\'' => match mode {
                Mode::Plain | Mode::Brace => Piece::Single,
                Mode::Double | Mode::DoubleBrace | Mode::Arith => Piece::Ordinary,
            },
            b'}' => match mode {
                Mode::Brace | Mode::DoubleBrace => Piece::Closer,
                Mode::Plain | Mode::Double | Mode::Arith => Piece::Ordinary,
            },
            b'(' if mode == Mode::Arith => Piece::Open,
            b')' if mode == Mode::Arith => self.bracket(nested, here),
            _ if mode == Mode::Plain && ends_words(byte) => Piece::Closer,
            _ => Piece::Ordinary,
        }
    }

    /// The piece that begins here, with so many brackets open in arithmetic; its first
    /// byte is read at the place `here`.
    #[inline(always)]
    #[tactic(auto, unfolding(shgrammar::specs::Pieces::piece_at, shgrammar::specs::Standing::raw_stands, shgrammar::specs::Bytes::ends_word, shgrammar::specs::Bytes::past_byte))]
    pub(crate) fn piece(&self, mode: Mode, nested: usize, here: usize) -> Piece
        requires { IsHere self.now here × Inside self.now here }
        ensures value { result ≡ piece_in self.now.how.edition mode (piece_at (text_of self.now)
            mode nested (here_of self.now)) }
        ensures shows { PieceShows mode nested result (text_of self.now) (on self.now here) }
        ensures word { mode ≡ Mode.Plain → ends_word (text_of self.now) (here_of self.now) ≡ false →
            result ≢ Piece.Closer }
    {
        match self.raw_byte(here) {
            None => {
                if mode == Mode::Plain {
                    Piece::Closer
                } else {
                    Piece::Missing
                }
            }
            Some(b'\\') => {
                if self.at_end(here + 1) {
                    Piece::LoneBackslash
                } else {
                    Piece::Escape
                }
            }
            Some(b'`') => Piece::Backquote,
            Some(b'$') => self.dollar(here).in_edition(self.how.edition, mode),
            Some(byte) => self.byte_piece(mode, nested, byte, here),
        }
    }

    /// Passes the parameter of an expansion: a name, digits, a special parameter or nothing.
    #[tactic(auto, unfolding(shgrammar::specs::Pieces::past_parameter, shgrammar::specs::Bytes::stands_in))]
    pub(crate) fn parameter(&mut self)
        ensures { Moves self.old self.new (past_parameter (text_of self.old) (here_of self.old)) }
    {
        let at = self.at;
        match self.byte_at(at) {
            Some(b'a'..=b'z' | b'A'..=b'Z' | b'_') => self.at = self.past(at, Class::Name),
            Some(b'0'..=b'9') => self.at = self.past(at, Class::Digit),
            Some(b'@' | b'*' | b'#' | b'?' | b'-' | b'$' | b'!') => self.bump(),
            _ => {}
        }
    }

    /// How the rest of an expansion is read that opened in this mode.
    #[tactic(auto, unfolding(shgrammar::specs::Pieces::rest_mode, shgrammar::specs::Bytes::stands))]
    pub(crate) fn rest_mode(&self, mode: Mode) -> Mode
        ensures { result ≡ rest_mode (text_of self.now) mode (here_of self.now) }
    {
        match self.byte_at(self.at) {
            Some(b'#' | b'%') => Mode::Brace,
            _ => mode.braces(),
        }
    }

    /// Text in single quotes, from its opener on.
    #[tactic(auto, unfolding(shgrammar::specs::Words::single, shgrammar::specs::Pieces::past_taken, shgrammar::specs::Bytes::past_byte), using(shgrammar::proofs::Places::quote_clear, shgrammar::proofs::Stretches::place_low))]
    pub(crate) fn single(&mut self, here: usize) -> Result<(), Stop>
        requires here { ByteHere self.old here }
        ensures value { PlaceToPlace self.old single result (λ _. tt) self.new }
        ensures onward { IfOk result (λ _. on self.old here < here_of self.new) }
    {
        let closer = self.next_quote(here + 1);
        if self.at_end(closer) {
            let opener = self.begin + here;
            return Err(self.wrong_at(FaultKind::UnclosedSingle, opener));
        }
        self.at = closer + 1;
        Ok(())
    }

    /// What stands up to the next closing byte or backslash. Answers whether more follows: if not, the text
    /// is closed.
    #[tactic(auto, unfolding(shgrammar::specs::Words::escaped_turn, shgrammar::specs::Pieces::past_taken), using(shgrammar::proofs::Places::backslash_next, shgrammar::proofs::Places::closer_is))]
    fn escaped_turn(&mut self, escaping: Escaping, opener: usize) -> Result<bool, Stop>
        requires { opener ≤ here_of self.old }
        ensures value { PlaceToPlace self.old
            (escaped_turn escaping (self.old.origin + opener) tt) result
            (λ more. step_if more tt) self.new }
        ensures onward { IfOk result (λ more. here_of self.old < here_of self.new) }
    {
        let at = self.at;
        let next = self.find(Sought::Either(escaping.closer(), b'\\'), at);
        if self.at_end(next) {
            return Err(self.wrong_at(escaping.unclosed(), opener));
        }
        if self.raw_stands(next, escaping.closer()) {
            self.at = next + 1;
            return Ok(false);
        }
        if self.at_end(next + 1) {
            return Err(self.wrong_at(escaping.unclosed(), opener));
        }
        self.at = next + 2;
        Ok(true)
    }

    /// Text in which a backslash takes one byte, from just after its opener on, which stands at a place of
    /// the text.
    #[tactic(auto, using(shgrammar::proofs::Turns::many_again, shgrammar::proofs::Turns::many_done, crate::proofs::Stops::many_stop))]
    fn escaped_text(&mut self, escaping: Escaping, opener: usize) -> Result<(), Stop>
        requires { opener ≤ here_of self.old }
        ensures value { PlaceToPlace self.old
            (many (escaped_turn escaping (self.old.origin + opener)) tt)
            result (λ _. tt) self.new }
        ensures onward { IfOk result (λ _. here_of self.old < here_of self.new) }
    {
        'turns: while self.escaped_turn(escaping, opener)? {}
        Ok(())
    }

    /// Text in backquotes, from its opener on.
    #[tactic(auto, unfolding(shgrammar::specs::Words::backquoted_text, shgrammar::specs::Bytes::past_byte), using(shgrammar::proofs::Stretches::place_low))]
    pub(crate) fn backquoted_text(&mut self, here: usize) -> Result<(), Stop>
        requires here { ByteHere self.old here }
        ensures value { PlaceToPlace self.old backquoted_text result (λ _. tt) self.new }
        ensures onward { IfOk result (λ _. on self.old here < here_of self.new) }
    {
        let opener = self.begin + here;
        self.at = here + 1;
        self.escaped_text(Escaping::Backquotes, opener)
    }

    /// Text in dollar-single quotes, from its `$` on.
    #[tactic(auto, unfolding(shgrammar::specs::Words::dollar_single, shgrammar::specs::Bytes::past_byte), using(shgrammar::proofs::Stretches::place_low))]
    pub(crate) fn dollar_single(&mut self, here: usize) -> Result<(), Stop>
        requires here { ByteHere self.old here }
        requires second { IsRead (text_of self.old) (on self.old here + 1) }
        ensures value { PlaceToPlace self.old dollar_single result (λ _. tt) self.new }
        ensures onward { IfOk result (λ _. on self.old here < here_of self.new) }
    {
        let opener = self.begin + here;
        self.at = self.past_byte(here + 1);
        self.escaped_text(Escaping::DollarSingle, opener)
    }
}
