//! The token that begins at a place (XCU 2.3, 2.4, 2.10.1).
ghost use Rattle.std.specs.Prelude.{◌≡◌, ◌≤◌, Some, false, true, slice_get};
ghost use Rattle.shgrammar.specs.Characters.{newline_char, semicolon};
ghost use Rattle.shgrammar.specs.Classes.{is_blank};
ghost use Rattle.shgrammar.specs.Standing.{continues, raw_past, raw_stands};
ghost use Rattle.shgrammar.specs.Tokens.{begins_assignment, greater_at, is_name_at, is_number, less_at, past_digits, semicolon_at, token_in, word_by};
ghost use Rattle.shline.specs.Clauses.{here_of, HoldsToken, Inside, Looks, on, Reaches, seen, start_of, Stays, Still, text_of, token_of};

use crate::cursor::Cursor;
use shast::RedirectOperator;
use shgrammar::{Class, Next, Position, Token, begins_a_word};
use shsource::Source;

impl<'a, S: Source, const TREE: u8> Cursor<'a, S, TREE> {
    /// Passes the digits that are in hand.
    #[tactic(auto, unfolding(shgrammar::specs::Tokens::past_digits))]
    pub(crate) fn pass_digits(&mut self)
        ensures value { here_of self.new ≡ past_digits (text_of self.old) (start_of self.old) }
        ensures onward { start_of self.old ≤ here_of self.new }
        ensures same { Stays self.old self.new }
    {
        let at = self.next_at;
        self.at = self.past(at, Class::Digit);
    }

    /// Whether a NAME and `=` stand at a place. The `=` is asked for first, since most words have none.
    #[inline(always)]
    #[tactic(auto, unfolding(shgrammar::specs::Tokens::begins_assignment, shgrammar::specs::Bytes::stands_in))]
    fn begins_assignment(&self, at: usize) -> bool
        requires { Inside self.now at }
        ensures { result ≡ seen self.now begins_assignment at }
    {
        if !self.stands(self.past(at, Class::Name), b'=') {
            return false;
        }
        matches!(self.byte_at(at), Some(b'a'..=b'z' | b'A'..=b'Z' | b'_'))
    }

    /// Whether the word at a place is a NAME.
    #[tactic(auto, unfolding(shgrammar::specs::Tokens::is_name_at, shgrammar::specs::Bytes::stands_in))]
    pub(crate) fn is_name(&self, at: usize) -> bool
        requires { Inside self.now at }
        ensures { result ≡ seen self.now is_name_at at }
    {
        if !self.ends_at(self.past(at, Class::Name)) {
            return false;
        }
        matches!(self.byte_at(at), Some(b'a'..=b'z' | b'A'..=b'Z' | b'_'))
    }

    /// Whether the word at a place of the text, at or before the token in hand, is a NAME. The stretch may
    /// have gone on since.
    pub(crate) fn is_name_from(&mut self, place: usize) -> bool
        requires { place ≤ start_of self.old }
        ensures value { result ≡ is_name_at (text_of self.old) place }
        ensures same { HoldsToken self.old self.new }
    {
        if place < self.begin {
            self.stretch_from(place);
        }
        let at = place - self.begin;
        self.is_name(at)
    }

    /// Whether digits that `<` or `>` follows stand at a place.
    #[inline(always)]
    #[tactic(auto, unfolding(shgrammar::specs::Tokens::is_number))]
    fn is_number(&self, at: usize) -> bool
        requires { Inside self.now at }
        ensures { result ≡ seen self.now is_number at }
    {
        if !self.stands_in(at, Class::Digit) {
            return false;
        }
        let end = self.past(at, Class::Digit);
        self.stands(end, b'<') || self.stands(end, b'>')
    }

    /// The operator of a redirection that begins with `<`; what stands after that is at a place.
    #[tactic(auto, unfolding(shgrammar::specs::Tokens::less_at))]
    fn less(&self, at: usize) -> RedirectOperator
        requires { Inside self.now at }
        ensures { result ≡ seen self.now less_at at }
    {
        if self.stands(at, b'<') {
            if self.stands(self.past_byte(at), b'-') {
                RedirectOperator::HereStripped
            } else {
                RedirectOperator::Here
            }
        } else if self.stands(at, b'&') {
            RedirectOperator::DuplicateInput
        } else if self.stands(at, b'>') {
            RedirectOperator::ReadWrite
        } else {
            RedirectOperator::Input
        }
    }

    /// The same of one that begins with `>`.
    #[tactic(auto, unfolding(shgrammar::specs::Tokens::greater_at))]
    fn greater(&self, at: usize) -> RedirectOperator
        requires { Inside self.now at }
        ensures { result ≡ seen self.now greater_at at }
    {
        if self.stands(at, b'>') {
            RedirectOperator::Append
        } else if self.stands(at, b'&') {
            RedirectOperator::DuplicateOutput
        } else if self.stands(at, b'|') {
            RedirectOperator::Clobber
        } else {
            RedirectOperator::Output
        }
    }

    /// What the word at a place is, which begins with this byte, in this position of a command.
    #[inline(always)]
    fn word_token(&self, at: usize, first: u8, position: Position) -> Token
        requires { Still self.now at × (seen self.now slice_get at ≡ Some first) }
        ensures { result ≡ token_in self.now.how.edition (seen self.now (word_by position) at) }
    {
        if position == Position::Suffix {
            return Token::Word;
        }
        if position == Position::Command {
            if let Some(reserved) = self.reserved(at, first) {
                return Token::Reserved(reserved);
            }
        }
        if self.begins_assignment(at) {
            Token::Assignment
        } else {
            Token::Word
        }
    }

    /// What begins with a `;`; what stands after that is at a place.
    #[inline(always)]
    #[tactic(auto, unfolding(shgrammar::specs::Bytes::stands))]
    fn semicolon_token(&self, at: usize) -> Token
        requires { Inside self.now at }
        ensures { result ≡ token_in self.now.how.edition (seen self.now semicolon_at at) }
    {
        match self.byte_at(at) {
            Some(b';') => Token::DoubleSemicolon,
            Some(b'&') if self.how.edition.is_later() => Token::SemicolonAmpersand,
            _ => Token::Semicolon,
        }
    }

    /// What begins at a place where no blank stands, but this byte.
    #[inline(always)]
    #[tactic(auto, unfolding(shgrammar::specs::Tokens::token_at, shgrammar::specs::Tokens::is_number, shgrammar::specs::Bytes::past_byte, shgrammar::specs::Bytes::stands, shgrammar::specs::Bytes::stands_in, shgrammar::specs::Standing::raw_stands))]
    fn token(&self, at: usize, byte: Option<u8>, position: Position) -> Token
        requires { Still self.now at × (byte ≡ seen self.now slice_get at) }
        ensures { result ≡ token_of self.now position (on self.now at) }
    {
        match byte {
            Some(first) if begins_a_word(first) => self.word_token(at, first, position),
            Some(b'\n') => Token::Newline,
            Some(b';') => self.semicolon_token(at + 1),
            _ => self.other_token(at, position),
        }
    }

    /// The same, for what is neither a newline nor `;` nor surely a word. It stands apart, so that the code
    /// of those that ask for a token stays small.
    #[inline(never)]
    #[tactic(auto, unfolding(shgrammar::specs::Tokens::token_at, shgrammar::specs::Tokens::is_number, shgrammar::specs::Bytes::past_byte, shgrammar::specs::Bytes::stands, shgrammar::specs::Bytes::stands_in, shgrammar::specs::Standing::raw_stands))]
    fn other_token(&self, at: usize, position: Position) -> Token
        requires still { Still self.now at }
        requires newline { seen self.now raw_stands at newline_char ≡ false }
        requires semicolon { seen self.now raw_stands at semicolon ≡ false }
        ensures { result ≡ token_of self.now position (on self.now at) }
    {
        match self.raw_byte(at) {
            None => Token::End,
            Some(b'&') => {
                if self.stands(at + 1, b'&') {
                    Token::AndIf
                } else {
                    Token::Ampersand
                }
            }
            Some(b'|') => {
                if self.stands(at + 1, b'|') {
                    Token::OrIf
                } else {
                    Token::Pipe
                }
            }
            Some(b'(') => Token::OpenParen,
            Some(b')') => Token::CloseParen,
            Some(b'<') => Token::Redirect(self.less(at + 1)),
            Some(b'>') => Token::Redirect(self.greater(at + 1)),
            Some(b'#') => Token::Comment,
            Some(b'0'..=b'9') if self.is_number(at) => Token::Number,
            Some(first) => self.word_token(at, first, position),
        }
    }

    /// To where the next token begins, and what it is in this position of a command.
    #[inline(always)]
    pub(crate) fn next_token(&mut self, position: Position)
        ensures { Looks self.old position self.new }
    {
        if self.at >= self.front.len() {
            return self.next_token_after(position);
        }
        self.next_token_near(position)
    }

    /// The same, where the stretch has no byte from here on.
    #[cold]
    #[inline(never)]
    fn next_token_after(&mut self, position: Position)
        ensures { Looks self.old position self.new }
    {
        self.go_on();
        self.next_token_near(position)
    }

    /// The same, in the stretch. Most often no continuation stands before the token.
    #[inline(always)]
    #[tactic(auto, using(shgrammar::proofs::Shown::shown_in, shgrammar::proofs::Shown::blanks_still, shgrammar::proofs::Unbroken::blanks_whole))]
    fn next_token_near(&mut self, position: Position)
        ensures { Looks self.old position self.new }
    {
        let from = self.at;
        let (at, byte) = self.raw_past_and_byte(from, Class::Blank);
        if self.continues_with(at, byte) {
            return self.next_token_joined(at, position);
        }
        let token = self.token(at, byte, position);
        self.next = Next {
            token,
            broken: false,
        };
        self.next_at = at;
    }

    /// The same, where the first blanks from here on end at a continuation.
    #[inline(never)]
    #[tactic(auto, unfolding(shgrammar::specs::Bytes::is_broken_at), using(shgrammar::proofs::Shown::shown_in, shgrammar::proofs::Shown::blanks_still))]
    fn next_token_joined(&mut self, end: usize, position: Position)
        requires end { Reaches self.old (raw_past is_blank) self.old.at end }
        requires joined { seen self.old continues end ≡ true }
        ensures { Looks self.old position self.new }
    {
        let at = self.past_broken_blanks(end);
        let token = self.token(at, self.raw_byte(at), position);
        self.next = Next {
            token,
            broken: true,
        };
        self.next_at = at;
    }
}
