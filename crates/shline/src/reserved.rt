//! Reserved words (XCU 2.4), and by which two bytes they are told from other words.
ghost use Rattle.std.specs.Prelude.{◌≡◌, [], ◌∷◌, None, Some, false, if◌then◌else◌, slice_get};
ghost use Rattle.shgrammar.specs.Shows.{IsRead};
ghost use Rattle.shgrammar.specs.Tokens.{first_of_words, is_word_at, past_reserved, reserved_at, reserved_words};
ghost use Rattle.shline.specs.Beginnings.{may_begin};
ghost use Rattle.shline.specs.Clauses.{Inside, seen, start_of, Steps, Still, text_of};

use crate::cursor::Cursor;
use shgrammar::{Class, Reserved, ends_words};
use shsource::Source;

// Two bytes may begin a reserved word only where they have a kind in common: a bit for each kind.
/// `ca`
const CA: u8 = 1;

/// `do` and `fo`
const DO: u8 = 2;

/// `el` and `es`
const EL: u8 = 4;

/// `fi`
const FI: u8 = 8;

/// `if` and `in`
const IF: u8 = 16;

/// `un`
const UN: u8 = 32;

/// `th` and `wh`
const TH: u8 = 64;

/// `!`, `{` and `}`, with any byte after them.
const ALONE: u8 = 128;

// The kinds of a first byte.
const O: u8 = 0;

const C: u8 = CA;

const D: u8 = DO;

const E: u8 = EL;

const F: u8 = DO | FI;

const I: u8 = IF;

const T: u8 = TH;

const U: u8 = UN;

/// What is a word alone; and any second byte.
const W: u8 = ALONE;

/// By a first byte, its kinds.
const FIRST: [u8; 256] = [
    O, O, O, O, O, O, O, O, O, O, O, O, O, O, O, O, O, O, O, O, O, O, O, O, O, O, O, O, O, O, O, O,
    O, W, O, O, O, O, O, O, O, O, O, O, O, O, O, O, O, O, O, O, O, O, O, O, O, O, O, O, O, O, O, O,
    O, O, O, O, O, O, O, O, O, O, O, O, O, O, O, O, O, O, O, O, O, O, O, O, O, O, O, O, O, O, O, O,
    O, O, O, C, D, E, F, O, O, I, O, O, O, O, O, O, O, O, O, O, T, U, O, T, O, O, O, W, O, W, O, O,
    O, O, O, O, O, O, O, O, O, O, O, O, O, O, O, O, O, O, O, O, O, O, O, O, O, O, O, O, O, O, O, O,
    O, O, O, O, O, O, O, O, O, O, O, O, O, O, O, O, O, O, O, O, O, O, O, O, O, O, O, O, O, O, O, O,
    O, O, O, O, O, O, O, O, O, O, O, O, O, O, O, O, O, O, O, O, O, O, O, O, O, O, O, O, O, O, O, O,
    O, O, O, O, O, O, O, O, O, O, O, O, O, O, O, O, O, O, O, O, O, O, O, O, O, O, O, O, O, O, O, O,
];

// The kinds of a second byte.
/// `a`
const A: u8 = ALONE | CA;

/// `o`
const B: u8 = ALONE | DO;

/// `l` and `s`
const L: u8 = ALONE | EL;

/// `i`
const J: u8 = ALONE | FI;

/// `f`
const G: u8 = ALONE | IF;

/// `n`
const N: u8 = ALONE | IF | UN;

/// `h`
const H: u8 = ALONE | TH;

/// A backslash: a word may go on after it, past a continuation.
const K: u8 = 255;

/// By a second byte, its kinds.
const SECOND: [u8; 256] = [
    W, W, W, W, W, W, W, W, W, W, W, W, W, W, W, W, W, W, W, W, W, W, W, W, W, W, W, W, W, W, W, W,
    W, W, W, W, W, W, W, W, W, W, W, W, W, W, W, W, W, W, W, W, W, W, W, W, W, W, W, W, W, W, W, W,
    W, W, W, W, W, W, W, W, W, W, W, W, W, W, W, W, W, W, W, W, W, W, W, W, W, W, W, W, K, W, W, W,
    W, A, W, W, W, W, G, W, H, J, W, W, L, W, N, B, W, W, W, L, W, W, W, W, W, W, W, W, W, W, W, W,
    W, W, W, W, W, W, W, W, W, W, W, W, W, W, W, W, W, W, W, W, W, W, W, W, W, W, W, W, W, W, W, W,
    W, W, W, W, W, W, W, W, W, W, W, W, W, W, W, W, W, W, W, W, W, W, W, W, W, W, W, W, W, W, W, W,
    W, W, W, W, W, W, W, W, W, W, W, W, W, W, W, W, W, W, W, W, W, W, W, W, W, W, W, W, W, W, W, W,
    W, W, W, W, W, W, W, W, W, W, W, W, W, W, W, W, W, W, W, W, W, W, W, W, W, W, W, W, W, W, W, W,
];

/// Whether a reserved word may begin with these two bytes: where this denies it, none does.
#[inline(always)]
#[tactic(auto, using(crate::proofs::TwoBytes::no_kind))]
fn may_begin(first: u8, second: u8) -> bool
    ensures { result ≡ false → may_begin reserved_words first second ≡ false }
{
    FIRST[first as usize] & SECOND[second as usize] != 0
}

impl<'a, S: Source, const TREE: u8> Cursor<'a, S, TREE> {
    /// Whether the word that is spelled so stands at a place. Most often no continuation stands in it.
    #[inline(always)]
    #[tactic(auto, using(shgrammar::proofs::Runs::run_letter_more, shgrammar::proofs::Runs::run_letter_other, shgrammar::proofs::Runs::run_word_whole))]
    fn is_word(&self, from: usize, word: &[u8]) -> bool
        requires { Inside self.now from }
        ensures { result ≡ seen self.now is_word_at from word.now }
    {
        let run = self.run_at(from);
        if run.len() <= word.len() {
            return self.is_broken_word(from, word);
        }
        'letters: for (index, letter) in word.iter().enumerate() {
            let byte = run[index];
            if byte == b'\\' {
                return self.is_broken_word(from, word);
            }
            if byte != *letter {
                return false;
            }
        }
        let next = run[word.len()];
        if next == b'\\' {
            return self.is_broken_word(from, word);
        }
        ends_words(next)
    }

    /// The same, past continuations and stretches of the source.
    #[cold]
    #[tactic(auto, using(shgrammar::proofs::Stretches::word_more, shgrammar::proofs::Stretches::word_other, shgrammar::proofs::Stretches::word_whole))]
    fn is_broken_word(&self, from: usize, word: &[u8]) -> bool
        requires { Inside self.now from }
        ensures { result ≡ seen self.now is_word_at from word.now }
    {
        let mut at = from;
        'letters: for letter in word {
            if !self.stands(at, *letter) {
                return false;
            }
            at = self.past_byte(at);
        }
        self.ends_at(at)
    }

    /// This reserved word, if it stands at a place.
    #[inline(always)]
    fn reserved_if_spelled(&self, at: usize, word: &[u8], reserved: Reserved) -> Option<Reserved>
        requires { Inside self.now at }
        ensures { result ≡ (if seen self.now is_word_at at word.now then Some reserved else None) }
    {
        if self.is_word(at, word) {
            Some(reserved)
        } else {
            None
        }
    }

    /// This reserved word, or that one, if one of them stands at a place.
    #[inline(always)]
    #[tactic(auto, unfolding(shgrammar::specs::Tokens::first_of_words))]
    fn reserved_of_two(
        &self,
        at: usize,
        word: &[u8],
        reserved: Reserved,
        other: &[u8],
        second: Reserved,
    ) -> Option<Reserved>
        requires { Inside self.now at }
        ensures { result ≡ seen self.now first_of_words at ((word.now, reserved) ∷
            (other.now, second) ∷ []) }
    {
        if self.is_word(at, word) {
            return Some(reserved);
        }
        self.reserved_if_spelled(at, other, second)
    }

    /// The reserved word that stands at a place, where this byte is the first, if one does. Most words begin
    /// with two bytes that begin none, and are told so without a jump that is hard to foretell.
    #[inline(always)]
    #[tactic(auto, using(crate::proofs::TwoBytes::none_begins))]
    pub(crate) fn reserved(&self, at: usize, first: u8) -> Option<Reserved>
        requires { Still self.now at × (seen self.now slice_get at ≡ Some first) }
        ensures { result ≡ seen self.now reserved_at at }
    {
        match self.raw_byte(at + 1) {
            Some(second) if !may_begin(first, second) => None,
            _ => self.reserved_by_letters(at),
        }
    }

    /// The same, letter by letter. The first byte tells which word it may be.
    #[inline(never)]
    #[tactic(auto, unfolding(shgrammar::specs::Tokens::reserved_words, shgrammar::specs::Tokens::first_of_words, shgrammar::specs::Tokens::is_word_at, shgrammar::specs::Bytes::stands))]
    fn reserved_by_letters(&self, at: usize) -> Option<Reserved>
        requires { Still self.now at }
        ensures { result ≡ seen self.now reserved_at at }
    {
        match self.raw_byte(at) {
            Some(b'!') => self.reserved_if_spelled(at, b"!", Reserved::Bang),
            Some(b'{') => self.reserved_if_spelled(at, b"{", Reserved::OpenBrace),
            Some(b'}') => self.reserved_if_spelled(at, b"}", Reserved::CloseBrace),
            Some(b'c') => self.reserved_if_spelled(at, b"case", Reserved::Case),
            Some(b'd') => self.reserved_of_two(at, b"do", Reserved::Do, b"done", Reserved::Done),
            Some(b'e') => {
                if self.is_word(at, b"elif") {
                    return Some(Reserved::Elif);
                }
                self.reserved_of_two(at, b"else", Reserved::Else, b"esac", Reserved::Esac)
            }
            Some(b'f') => self.reserved_of_two(at, b"fi", Reserved::Fi, b"for", Reserved::For),
            Some(b'i') => self.reserved_of_two(at, b"if", Reserved::If, b"in", Reserved::In),
            Some(b't') => self.reserved_if_spelled(at, b"then", Reserved::Then),
            Some(b'u') => self.reserved_if_spelled(at, b"until", Reserved::Until),
            Some(b'w') => self.reserved_if_spelled(at, b"while", Reserved::While),
            _ => None,
        }
    }

    /// Passes the reserved word in hand.
    #[tactic(auto, unfolding(shgrammar::specs::Tokens::past_reserved, shgrammar::specs::Bytes::past_byte, crate::specs::InHand::InHand))]
    pub(crate) fn pass_reserved(&mut self)
        requires { IsRead (text_of self.old) (start_of self.old) }
        ensures { Steps self.old self.new (past_reserved (text_of self.old) (start_of self.old)) }
    {
        let at = self.next_at;
        self.at = self.past(at + 1, Class::Name);
    }
}
