//! How the bytes of a word are read: the modes, and the pieces that they take.
ghost use Rattle.std.specs.Prelude.{◌≡◌};
ghost use Rattle.shgrammar.specs.Pieces.{braces_in, closes_by, piece_in, quotes_singly, unclosed, unclosed_in};

use crate::edition::Edition;
use crate::fault::FaultKind;

/// Where in a word a place is (XCU 2.2, 2.6).
#[derive(Clone, Copy, PartialEq, Eq)]
pub enum Mode {
    /// Outside all quotes and expansions.
    Plain,
    /// In a double-quoted string.
    Double,
    /// In a `${` that opened in `Plain` or `Brace`, or in a pattern, after `#` or `%`.
    Brace,
    /// In any other `${`.
    DoubleBrace,
    /// In `$((`.
    Arith,
}

/// A piece of a word, by what it begins with.
#[derive(Clone, Copy)]
pub enum Piece {
    /// No piece: the word, the string or the expansion ends.
    Closer,
    /// No piece: the text ends inside.
    Missing,
    /// A backslash that is the last byte.
    LoneBackslash,
    /// A backslash and the byte after it.
    Escape,
    /// Text in single quotes.
    Single,
    /// `$'`: text in dollar-single quotes, which POSIX.1-2017 has not.
    DollarSingle,
    /// A string in double quotes.
    Double,
    /// Text in backquotes.
    Backquote,
    /// The special parameter `$$`: the second `$` begins nothing.
    Pid,
    /// A command substitution `$(`.
    Subst,
    /// An arithmetic expansion `$((`.
    Arith,
    /// A parameter expansion `${`.
    Param,
    /// A round bracket in arithmetic.
    Open,
    /// The round bracket that closes it.
    Close,
    /// A round bracket that closes nothing in arithmetic, and that no second one follows.
    BadClose,
    /// Any other byte.
    Ordinary,
}

impl Piece {
    /// The piece that an edition has in its place, in this mode.
    #[inline(always)]
    pub fn in_edition(self, edition: Edition, mode: Mode) -> Piece
        ensures { result ≡ piece_in edition mode self }
    {
        match self {
            Piece::DollarSingle if !(edition.is_later() && mode.quotes_singly()) => Piece::Ordinary,
            _ => self,
        }
    }
}

/// Text in which a backslash takes the byte after it, and which the next other closing byte ends.
#[derive(Clone, Copy, Debug, PartialEq, Eq)]
pub enum Escaping {
    /// Text in backquotes (XCU 2.6.3).
    Backquotes,
    /// Text in dollar-single quotes (POSIX.1-2024, XCU 2.2.4).
    DollarSingle,
}

impl Escaping {
    /// The byte that closes it.
    #[inline(always)]
    pub fn closer(self) -> u8
        ensures { result ≡ closes_by self }
    {
        match self {
            Escaping::Backquotes => b'`',
            Escaping::DollarSingle => b'\'',
        }
    }

    /// The fault where the text ends in it.
    pub fn unclosed(self) -> FaultKind
        ensures { result ≡ unclosed_in self }
    {
        match self {
            Escaping::Backquotes => FaultKind::UnclosedBackquote,
            Escaping::DollarSingle => FaultKind::UnclosedDollarSingle,
        }
    }
}

impl Mode {
    /// Whether single quotes quote here.
    #[inline(always)]
    pub fn quotes_singly(self) -> bool
        ensures { result ≡ quotes_singly self }
    {
        matches!(self, Mode::Plain | Mode::Brace)
    }

    /// The fault of text that ends inside. Nobody asks it of `Plain`: there the end ends the word.
    pub fn unclosed(self) -> FaultKind
        ensures { result ≡ unclosed self }
    {
        match self {
            Mode::Plain => FaultKind::UnexpectedEnd,
            Mode::Double => FaultKind::UnclosedDouble,
            Mode::Brace | Mode::DoubleBrace => FaultKind::UnclosedParam,
            Mode::Arith => FaultKind::UnclosedArith,
        }
    }

    /// How an expansion is read that opened in this mode.
    pub fn braces(self) -> Mode
        ensures { result ≡ braces_in self }
    {
        match self {
            Mode::Plain | Mode::Brace => Mode::Brace,
            Mode::Double | Mode::DoubleBrace | Mode::Arith => Mode::DoubleBrace,
        }
    }
}
