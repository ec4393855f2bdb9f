//! What is to be known of a byte, in one table.
ghost use Rattle.std.specs.Prelude.{◌≡◌, Some};
ghost use Rattle.shgrammar.specs.Bytes.{ends};
ghost use Rattle.shgrammar.specs.Classes.{is_name};
ghost use Rattle.shgrammar.specs.Plain.{alone, begins_a_word, is_plain};

use crate::mode::Mode;

// A set of modes: a bit for each.
const PLAIN: u8 = 1;

const DOUBLE: u8 = 2;

const BRACE: u8 = 4;

const DOUBLE_BRACE: u8 = 8;

const ARITH: u8 = 16;

/// Of a byte before which a word ends.
const ENDS: u8 = 32;

/// Of a byte of a name.
const NAME: u8 = 64;

/// Of a byte with which something else than a word may begin.
const OTHER: u8 = 128;

// In which modes a byte is special, and what else is to be known of it.
/// Ordinary bytes, in none.
const O: u8 = 0;
/// Letters and the underscore.
const N: u8 = NAME;
/// Digits: a number may begin.
const G: u8 = NAME | OTHER;
/// `#`: a comment begins.
const H: u8 = OTHER;
/// The backslash, the backquote and `$`, in all.
const A: u8 = PLAIN | DOUBLE | BRACE | DOUBLE_BRACE | ARITH;
/// What ends a word.
const E: u8 = PLAIN | ENDS | OTHER;
/// Round brackets.
const R: u8 = PLAIN | ARITH | ENDS | OTHER;
/// The single quote.
const S: u8 = PLAIN | BRACE;
/// The double quote.
const D: u8 = PLAIN | DOUBLE | BRACE | DOUBLE_BRACE;
/// The closing brace.
const C: u8 = BRACE | DOUBLE_BRACE;

/// By a byte: in which modes it is special, whether a word ends before it, whether it may be in a name, and
/// whether something else than a word may begin with it. A table is read faster than so many tests.
const MARKS: [u8; 256] = [
    O, O, O, O, O, O, O, O, O, E, E, O, O, O, O, O, O, O, O, O, O, O, O, O, O, O, O, O, O, O, O, O,
    E, O, D, H, A, O, E, S, R, R, O, O, O, O, O, O, G, G, G, G, G, G, G, G, G, G, O, E, E, O, E, O,
    O, N, N, N, N, N, N, N, N, N, N, N, N, N, N, N, N, N, N, N, N, N, N, N, N, N, N, O, A, O, O, N,
    A, N, N, N, N, N, N, N, N, N, N, N, N, N, N, N, N, N, N, N, N, N, N, N, N, N, N, O, E, C, O, O,
    O, O, O, O, O, O, O, O, O, O, O, O, O, O, O, O, O, O, O, O, O, O, O, O, O, O, O, O, O, O, O, O,
    O, O, O, O, O, O, O, O, O, O, O, O, O, O, O, O, O, O, O, O, O, O, O, O, O, O, O, O, O, O, O, O,
    O, O, O, O, O, O, O, O, O, O, O, O, O, O, O, O, O, O, O, O, O, O, O, O, O, O, O, O, O, O, O, O,
    O, O, O, O, O, O, O, O, O, O, O, O, O, O, O, O, O, O, O, O, O, O, O, O, O, O, O, O, O, O, O, O,
];

/// Whether a word ends before this byte: a blank, a newline, or what an operator begins with.
#[inline(always)]
#[tactic(auto, using(crate::proofs::PlainTable::table_ends))]
pub fn ends_words(byte: u8) -> bool
    ensures { result ≡ ends (Some byte) }
{
    MARKS[byte as usize] & ENDS != 0
}

/// Whether a byte is a letter, a digit or an underscore, all ASCII.
#[inline(always)]
#[tactic(auto, using(crate::proofs::PlainTable::table_names))]
pub(crate) fn is_in_names(byte: u8) -> bool
    ensures { result ≡ is_name byte }
{
    MARKS[byte as usize] & NAME != 0
}

/// Whether only a word begins with this byte: it is no digit, no `#`, and no word ends before it.
#[inline(always)]
#[tactic(auto, using(crate::proofs::PlainTable::table_words))]
pub fn begins_a_word(byte: u8) -> bool
    ensures { result ≡ begins_a_word byte }
{
    MARKS[byte as usize] & OTHER == 0
}

impl Mode {
    /// The set of this mode alone.
    #[inline(always)]
    fn alone(self) -> u8
        ensures { result ≡ alone self }
    {
        match self {
            Mode::Plain => PLAIN,
            Mode::Double => DOUBLE,
            Mode::Brace => BRACE,
            Mode::DoubleBrace => DOUBLE_BRACE,
            Mode::Arith => ARITH,
        }
    }

    /// Whether a byte is ordinary in this mode.
    #[inline(always)]
    #[tactic(auto, using(crate::proofs::PlainTable::table_tells))]
    pub fn is_plain(self, byte: u8) -> bool
        ensures { result ≡ is_plain self byte }
    {
        MARKS[byte as usize] & self.alone() == 0
    }
}
