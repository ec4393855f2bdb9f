//! The delimiter of a here-document: its word after quote removal (XCU 2.6.7, 2.7.4).
ghost use Rattle.std.specs.List.{list_all};
ghost use Rattle.std.specs.Prelude.{◌≡◌, ◌+◌, ◌<◌, ◌≤◌, ◌==◌, ◌||◌, ℕ, Option, Some, true, get_or, IfOk, IfSome, List as Row, drop, false, length, nat_lt, option_map};
ghost use Rattle.shgrammar.specs.Bytes.{byte_at};
ghost use Rattle.shgrammar.specs.HereDocuments.{after_quote, byte_left, delimiter_in, delimiter_of, dollar_left, escape_left, has_dollar_single, is_live, is_quote, is_quoted, not_quoted, stays_before, unquoted};
ghost use Rattle.shgrammar.specs.Plain.{is_plain};
ghost use Rattle.shgrammar.specs.Standing.{continues, is_byte, raw_stands};
ghost use Rattle.shgrammar.specs.Unquoting.{a_delimiter, escapes, is_escaped, is_wrapped, left_by, left_of, plain_part, rest_of, unwrapped, view_delimiter, view_quoting};
ghost use Rattle.shgrammar.specs.declared.mode.Mode.TheVariants.{Plain};

use crate::edition::Edition;
use crate::mode::Mode;
use std::alloc::{AllocError, Global};

/// The text of a delimiter, and whether its document is literal.
#[derive(Drop)]
pub struct Delimiter {
    pub text: Vec<u8>,
    pub literal: bool,
}

/// How a byte of a word is quoted.
#[derive(Clone, Copy, PartialEq, Eq)]
enum Quoting {
    NotQuoted,
    InSingle,
    InDouble,
}

impl Quoting {
    /// Whether this byte opens quotes, or closes them.
    fn is_quote(self, byte: u8) -> bool
        ensures { result ≡ is_quote (view_quoting self) byte }
    {
        match self {
            Quoting::NotQuoted => byte == b'\'' || byte == b'"',
            Quoting::InSingle => byte == b'\'',
            Quoting::InDouble => byte == b'"',
        }
    }

    /// How the bytes after this quote are quoted.
    fn after_quote(self, quote: u8) -> Quoting
        ensures { view_quoting result ≡ after_quote (view_quoting self) quote }
    {
        match self {
            Quoting::NotQuoted => {
                if quote == b'\'' {
                    Quoting::InSingle
                } else {
                    Quoting::InDouble
                }
            }
            Quoting::InSingle | Quoting::InDouble => Quoting::NotQuoted,
        }
    }

    /// Whether a backslash stays before this byte: in double quotes it quotes only some.
    fn stays_before(self, byte: u8) -> bool
        ensures { result ≡ stays_before (view_quoting self) byte }
    {
        self == Quoting::InDouble && !matches!(byte, b'$' | b'`' | b'"' | b'\\')
    }

    /// Whether this byte is that special one, where it is special.
    fn is_live(self, special: u8, byte: u8) -> bool
        ensures { result ≡ is_live (view_quoting self) special byte }
    {
        self != Quoting::InSingle && byte == special
    }
}

/// Whether this byte stands at a place of a word.
#[tactic(auto, unfolding(crate::specs::Standing::raw_stands))]
fn stands(word: &[u8], at: usize, byte: u8) -> bool
    ensures { result ≡ raw_stands word.now at byte }
{
    match word.get(at) {
        Some(found) => *found == byte,
        None => false,
    }
}

/// Whether a continuation stands at a place of a word.
#[tactic(auto, unfolding(crate::specs::Standing::continues))]
fn continues(word: &[u8], at: usize) -> bool
    requires { at < length word.now }
    ensures { result ≡ continues word.now at }
{
    stands(word, at, b'\\') && stands(word, at + 1, b'\n')
}

/// The byte that is read at a place of a word, past continuations.
#[tactic(auto, using(crate::proofs::Unquoted::joined_on, crate::proofs::Unquoted::joined_here, crate::proofs::Unquoted::joined_end, crate::proofs::Unquoted::two_bytes))]
fn byte_at(word: &[u8], from: usize) -> Option<u8>
    requires { from ≤ length word.now }
    ensures { result ≡ byte_at word.now from }
{
    let mut at = from;
    'continuations: while at < word.len() {
        if !continues(word, at) {
            return Some(word[at]);
        }
        at += 2;
    }
    None
}

/// Whether this byte was found.
fn is_byte(found: Option<u8>, byte: u8) -> bool
    ensures { result ≡ is_byte found byte }
{
    match found {
        Some(other) => other == byte,
        None => false,
    }
}

/// Whether the byte that was found after a `$` makes it an expansion.
fn opens(found: Option<u8>) -> bool
    ensures { result ≡ (is_byte found 40 || is_byte found 123) }
{
    is_byte(found, b'(') || is_byte(found, b'{')
}

/// Quote removal, as far as it has come.
#[derive(Drop)]
struct Unquoting {
    text: Vec<u8>,
    quoting: Quoting,
    /// The next `$` is the second of `$$`.
    second: bool,
}

impl Unquoting {
    /// The byte after a backslash.
    #[tactic(auto, using(crate::proofs::Unquoted::escape_dropped, crate::proofs::Unquoted::escape_both, crate::proofs::Unquoted::escape_one))]
    fn escaped(&mut self, byte: u8) -> Result<(), AllocError>
        ensures left { IfOk result
            (λ done. (left : Option (Row ℕ)) →
            left_of self.old.text.items (escape_left (view_quoting self.old.quoting) byte left) ≡
            left_of self.new.text.items left) }
        ensures same { IfOk result
            (λ done. (self.new.quoting ≡ self.old.quoting) × (self.new.second ≡ self.old.second)) }
    {
        if byte == b'\n' {
            return Ok(());
        }
        if self.quoting.stays_before(byte) {
            self.text.push(b'\\')?;
            self.text.push(byte)?;
            return Ok(());
        }
        self.text.push(byte)?;
        Ok(())
    }

    /// The `$` just before a place of the word. Answers that place, or `None`
    /// where it begins an expansion.
    #[tactic(auto, using(crate::proofs::Unquoted::dollar_second, crate::proofs::Unquoted::dollar_opens, crate::proofs::Unquoted::dollar_on))]
    fn dollar(&mut self, word: &[u8], next: usize) -> Result<Option<usize>, AllocError>
        requires { next ≤ length word.now }
        ensures left { IfOk result (λ found. left_of self.old.text.items
            (dollar_left self.old.second (drop next word.now)
            (λ second. unquoted (view_quoting self.old.quoting) second (drop next word.now)))
            ≡ left_by self.new word.now found) }
        ensures place { IfOk result (λ found. IfSome found (λ at. at ≡ next)) }
    {
        if self.second {
            self.second = false;
            self.text.push(b'$')?;
            return Ok(Some(next));
        }
        let following = byte_at(word, next);
        if opens(following) {
            return Ok(None);
        }
        self.second = is_byte(following, b'$');
        self.text.push(b'$')?;
        Ok(Some(next))
    }

    /// The byte at a place of the word, which is after no backslash. Answers the place after it, or
    /// `None` where an expansion stands or text in backquotes.
    #[tactic(auto, using(crate::proofs::Unquoted::byte_quote, crate::proofs::Unquoted::byte_backquote, crate::proofs::Unquoted::byte_dollar, crate::proofs::Unquoted::byte_other))]
    fn byte(&mut self, word: &[u8], at: usize) -> Result<Option<usize>, AllocError>
        requires { at < length word.now }
        ensures left { IfOk result (λ found. left_of self.old.text.items
            (byte_left (view_quoting self.old.quoting) self.old.second (get_or word.now at 0)
            (drop (at + 1) word.now) (λ q s. unquoted q s (drop (at + 1) word.now)))
            ≡ left_by self.new word.now found) }
        ensures place { IfOk result (λ found. IfSome found (λ next. next ≡ at + 1)) }
    {
        let byte = word[at];
        if self.quoting.is_quote(byte) {
            self.quoting = self.quoting.after_quote(byte);
            self.second = false;
            return Ok(Some(at + 1));
        }
        if self.quoting.is_live(b'`', byte) {
            return Ok(None);
        }
        if self.quoting.is_live(b'$', byte) {
            return self.dollar(word, at + 1);
        }
        self.text.push(byte)?;
        Ok(Some(at + 1))
    }

    /// Whether the byte at a place of the word is a backslash that quotes the next one.
    fn escapes(&self, word: &[u8], at: usize) -> bool
        requires { at < length word.now }
        ensures value { result ≡ escapes (view_quoting self.now.quoting) word.now at }
        ensures inside { result ≡ true → at + 1 < length word.now }
    {
        at + 1 < word.len() && self.quoting.is_live(b'\\', word[at])
    }

    /// The byte at a place of the word, and the one that it quotes.
    #[tactic(auto, using(crate::proofs::Unquoted::take_escape, crate::proofs::Unquoted::take_byte))]
    fn take(&mut self, word: &[u8], at: usize) -> Result<Option<usize>, AllocError>
        requires { at < length word.now }
        ensures left { IfOk result
            (λ found. rest_of self.old word.now at ≡ left_by self.new word.now found) }
        ensures place { IfOk result
            (λ found. IfSome found (λ next. (at < next) × (next ≤ length word.now))) }
    {
        if self.escapes(word, at) {
            self.escaped(word[at + 1])?;
            return Ok(Some(at + 2));
        }
        self.byte(word, at)
    }
}

/// What quote removal leaves of a word, or `None` where it has an expansion or text in backquotes.
#[tactic(auto, using(crate::proofs::Unquoted::nothing_left, crate::proofs::Unquoted::all_left, crate::proofs::Unquoted::none_left))]
fn unquoted(alloc: Global, word: &[u8]) -> Result<Option<Vec<u8>>, AllocError>
    ensures { IfOk result (λ left. option_map (λ v. v.items) left
        ≡ unquoted not_quoted false word.now) }
{
    let mut so_far = Unquoting {
        text: Vec::new(alloc),
        quoting: Quoting::NotQuoted,
        second: false,
    };
    let mut at = 0;
    'bytes: while at < word.len() {
        match so_far.take(word, at)? {
            Some(next) => at = next,
            None => return Ok(None),
        }
    }
    Ok(Some(so_far.text))
}

/// Whether this byte quotes.
fn quotes(byte: u8) -> bool
    ensures { result ≡ (byte == 92 || byte == 39 || byte == 34) }
{
    byte == b'\\' || byte == b'\'' || byte == b'"'
}

/// Whether a part of a word is quoted, perhaps an empty one. A continuation quotes nothing.
#[tactic(auto, using(crate::proofs::Unquoted::bare_on, crate::proofs::Unquoted::bare_quotes, crate::proofs::Unquoted::bare_other, crate::proofs::Unquoted::bare_end, crate::proofs::Unquoted::two_bytes))]
fn is_quoted(word: &[u8]) -> bool
    ensures { result ≡ is_quoted word.now }
{
    let mut at = 0;
    'bytes: while at < word.len() {
        if continues(word, at) {
            at += 2;
            continue;
        }
        if quotes(word[at]) {
            return true;
        }
        at += 1;
    }
    false
}

/// Whether all bytes of a word are ordinary outside quotes.
fn are_plain(word: &[u8]) -> bool
    ensures { result ≡ list_all (is_plain Plain) word.now }
{
    'bytes: for byte in word {
        if !Mode::Plain.is_plain(*byte) {
            return false;
        }
    }
    true
}

/// Whether a word has quotes around it: the same at both ends.
fn is_wrapped(word: &[u8]) -> bool
    ensures value { result ≡ is_wrapped word.now }
    ensures inside { result ≡ true → 2 ≤ length word.now }
{
    if word.len() < 2 {
        return false;
    }
    let quote = word[0];
    Quoting::NotQuoted.is_quote(quote) && word[word.len() - 1] == quote
}

/// Whether a backslash stands before other bytes of a word.
fn is_escaped(word: &[u8]) -> bool
    ensures value { result ≡ is_escaped word.now }
    ensures inside { result ≡ true → 2 ≤ length word.now }
{
    word.len() >= 2 && word[0] == b'\\'
}

/// A word without the quotes around it or the backslash before it, if it has them.
fn unwrapped(word: &[u8]) -> &[u8]
    ensures { result.now ≡ unwrapped word.now }
{
    if is_wrapped(word) {
        return &word[1..word.len() - 1];
    }
    if is_escaped(word) {
        return &word[1..];
    }
    word
}

/// The part of a word that quote removal leaves, where it is of ordinary bytes: all of
/// it, all between the quotes around it, or all after a backslash. Most delimiters
/// are letters, and are quoted so, or not at all.
#[tactic(auto, using(crate::proofs::PlainDelimiters::plain_whole))]
pub fn plain_part(word: &[u8]) -> Option<&[u8]>
    ensures part { option_map (λ part. part.now) result ≡ plain_part word.now }
    ensures delimiter { IfSome result
        (λ part. delimiter_of word.now
        ≡ Some (a_delimiter part.now (nat_lt (length part.now) (length word.now)))) }
{
    let part = unwrapped(word);
    if are_plain(part) { Some(part) } else { None }
}

/// Whether text in dollar-single quotes stands in a word.
#[tactic(auto, using(crate::proofs::DollarSingles::has_escape, crate::proofs::DollarSingles::has_quote, crate::proofs::DollarSingles::has_here, crate::proofs::DollarSingles::has_dollar, crate::proofs::DollarSingles::has_other, crate::proofs::DollarSingles::has_none))]
fn has_dollar_single(word: &[u8]) -> bool
    ensures { result ≡ has_dollar_single not_quoted false word.now }
{
    let mut quoting = Quoting::NotQuoted;
    let mut second = false;
    let mut at = 0;
    'bytes: while at + 1 < word.len() {
        let byte = word[at];
        if quoting.is_live(b'\\', byte) {
            at += 2;
            continue;
        }
        if quoting.is_quote(byte) {
            quoting = quoting.after_quote(byte);
            second = false;
        } else if quoting.is_live(b'$', byte) {
            let next = byte_at(word, at + 1);
            if !second && quoting.is_quote(b'\'') && is_byte(next, b'\'') {
                return true;
            }
            second = !second && is_byte(next, b'$');
        }
        at += 1;
    }
    false
}

/// The delimiter that a word is, by its bytes as they stand (XCU 2.7.4). One with an
/// expansion or text in backquotes is none.
///
/// # Errors
///
/// Memory ran out.
pub fn delimiter_of(alloc: Global, word: &[u8]) -> Result<Option<Delimiter>, AllocError>
    ensures { IfOk result (λ found. option_map view_delimiter found ≡ delimiter_of word.now) }
{
    if let Some(part) = plain_part(word) {
        return Ok(Some(Delimiter {
            text: Vec::from_slice(alloc, part)?,
            literal: part.len() < word.len(),
        }));
    }
    match unquoted(alloc, word)? {
        Some(text) => Ok(Some(Delimiter {
            text,
            literal: is_quoted(word),
        })),
        None => Ok(None),
    }
}

/// The delimiter that a word is in an edition: one with text in dollar-single quotes is none, where the
/// edition has them.
///
/// # Errors
///
/// Memory ran out.
pub fn delimiter_in(
    alloc: Global,
    edition: Edition,
    word: &[u8],
) -> Result<Option<Delimiter>, AllocError>
    ensures { IfOk result (λ found. option_map view_delimiter found
        ≡ delimiter_in edition word.now) }
{
    if edition.is_later() && has_dollar_single(word) {
        return Ok(None);
    }
    delimiter_of(alloc, word)
}
