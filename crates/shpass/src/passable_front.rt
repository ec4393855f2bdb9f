//! What may be passed of a script that is read in parts.
ghost use Rattle.std.specs.Prelude.{◌≡◌, ◌-◌, ◌<◌, ◌≤◌, IfErr, IfOk, IfSome, None, Some, length, slice_get, true};
ghost use Rattle.shgrammar.specs.Characters.{newline_char};
ghost use Rattle.shline.specs.Limits.{wants_memory};
ghost use Rattle.shgrammar.specs.Search.{LineBefore, MayPass, StopsAt};

use crate::newline::ends_in_newline;
use shgrammar::{Edition, Keep};
use shline::{Begin, NO_TREE, ReadOptions, Stop, line_at};
use shsource::Source;
use std::alloc::{AllocError, Global};
use std::mem;

/// The place after the line that begins at an offset, if it has no fault and a
/// newline ended it that is its last byte.
#[tactic(auto, using(shline::proofs::Wanted::seen_after))]
fn end_of_passable_line<S: Source>(
    alloc: Global,
    edition: Edition,
    source: &S,
    at: usize,
) -> Result<Option<usize>, AllocError>
    requires { at ≤ length (S.bytes source.now) }
    ensures some { IfOk result
        (λ next. IfSome next (λ p. LineBefore edition (S.bytes source.now) at p)) }
    ensures none { IfOk result (λ next. next ≡ None → StopsAt edition (S.bytes source.now) at) }
    ensures memory { IfErr result (λ e. wants_memory NO_TREE (S.bytes source.now) ≡ true) }
{
    let begin = Begin {
        at,
        origin: 0,
        blank: false,
    };
    let how = ReadOptions {
        keep: Keep::Nothing,
        edition,
    };
    match line_at::<S, NO_TREE>(alloc, source, begin, how, None) {
        Ok(told) => {
            // They hold no memory.
            mem::forget(told.entries);
            if told.newline && ends_in_newline(source, at, told.len) {
                return Ok(Some(at + told.len));
            }
            Ok(None)
        }
        Err(Stop::Wrong(_)) => Ok(None),
        Err(Stop::Memory) => Err(AllocError),
    }
}

/// How many bytes at the front of a source are lines without a fault, each ended by a
/// newline that is its last byte.
///
/// The source may be the front of a script. Whatever follows these lines there, the first fault of the script
/// is that after them. So who looks for it alone need not hold them.
pub fn faultless_front<S: Source>(
    alloc: Global,
    edition: Edition,
    source: &S,
) -> Result<usize, AllocError>
    ensures passed { IfOk result (λ n. MayPass edition (S.bytes source.now) n) }
    ensures within { IfOk result (λ n. n ≤ length (S.bytes source.now)) }
    ensures newline { IfOk result
        (λ n. 0 < n → slice_get (S.bytes source.now) (n - 1) ≡ Some newline_char) }
    // They are all: no such line follows.
    ensures all { IfOk result (StopsAt edition (S.bytes source.now)) }
    // Where no `<` stands, it succeeds, whatever memory is left.
    ensures memory { IfErr result (λ e. wants_memory NO_TREE (S.bytes source.now) ≡ true) }
{
    let mut at = 0;
    'lines: while let Some(next) = end_of_passable_line(alloc, edition, source, at)? {
        at = next;
    }
    Ok(at)
}
