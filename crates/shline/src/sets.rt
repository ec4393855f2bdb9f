//! The sets of bytes at which a run of others ends, as the tables that `shscan` takes: the
//! kinds of a byte by its low four bits, and by its high four.
ghost use Rattle.std.specs.Prelude.{◌≡◌, ◌<◌, length, slice_get, slice_index, true};
ghost use Rattle.shgrammar.specs.Plain.{is_plain};
ghost use Rattle.shgrammar.specs.Standing.{passes};
ghost use Rattle.shline.specs.Sought.{ArePlain};

use shgrammar::Mode;
use shscan::front_outside;

/// Special bytes, by the high four bits: a kind for each half that one has.
const SPECIAL: [u8; 16] = [1, 0, 2, 4, 0, 8, 16, 32, 0, 0, 0, 0, 0, 0, 0, 0];

/// Those that are special outside all quotes.
const PLAIN: [u8; 16] = [18, 0, 2, 0, 2, 0, 2, 2, 2, 3, 1, 4, 44, 0, 4, 0];

/// Those that are in double quotes.
const DOUBLE: [u8; 16] = [16, 0, 2, 0, 2, 0, 0, 0, 0, 0, 0, 0, 8, 0, 0, 0];

/// Those that are in braces.
const BRACE: [u8; 16] = [16, 0, 2, 0, 2, 0, 0, 2, 0, 0, 0, 0, 8, 32, 0, 0];

/// Those that are in braces within double quotes.
const DOUBLE_BRACE: [u8; 16] = [16, 0, 2, 0, 2, 0, 0, 0, 0, 0, 0, 0, 8, 32, 0, 0];

/// How many bytes at the front are ordinary in a mode, one by one.
#[inline(always)]
fn plain_by_byte(run: &[u8], mode: Mode) -> usize
    ensures { ArePlain mode run.now result }
{
    for (count, byte) in run.iter().enumerate() {
        if !mode.is_plain(*byte) {
            return count;
        }
    }
    run.len()
}

/// Whether there is a byte at a place, and it is ordinary in a mode.
#[inline(always)]
fn is_plain_at(run: &[u8], at: usize, mode: Mode) -> bool
    ensures value { result ≡ passes (is_plain mode) (slice_get run.now at) }
    ensures plain { result ≡ true → (at < length run.now) ×
        (is_plain mode (slice_index run.now at) ≡ true) }
{
    match run.get(at) {
        Some(byte) => mode.is_plain(*byte),
        None => false,
    }
}

/// How many bytes at the front are ordinary in a mode that few texts have: that of braces or of
/// arithmetic. Not inlined, so that it takes nothing from what most bytes run through.
#[inline(never)]
fn rarer_front(run: &[u8], mode: Mode) -> usize
    ensures { ArePlain mode run.now result }
{
    match mode {
        Mode::Brace => front_outside(run, BRACE, SPECIAL),
        Mode::DoubleBrace => front_outside(run, DOUBLE_BRACE, SPECIAL),
        Mode::Plain | Mode::Double | Mode::Arith => plain_by_byte(run, mode),
    }
}

/// How many bytes at the front are ordinary in a mode. Most bytes stand outside all quotes or
/// in double quotes; many words begin with a quote or a `$`, and many end after their first
/// byte. Those are told at less cost than a row of bytes is.
#[inline(always)]
pub(crate) fn plain_front(run: &[u8], mode: Mode) -> usize
    ensures { ArePlain mode run.now result }
{
    if !is_plain_at(run, 0, mode) {
        return 0;
    }
    if !is_plain_at(run, 1, mode) {
        return 1;
    }
    match mode {
        Mode::Plain => front_outside(run, PLAIN, SPECIAL),
        Mode::Double => front_outside(run, DOUBLE, SPECIAL),
        Mode::Brace | Mode::DoubleBrace | Mode::Arith => rarer_front(run, mode),
    }
}
