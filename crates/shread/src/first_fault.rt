//! The first fault of a script, a line at a time and without its tree.
ghost use Rattle.std.specs.Prelude.{◌≡◌, ◌+◌, ◌^◌, ◌<◌, ◌≤◌, IfErr, IfOk, IfSome, IsOk, length, true};
ghost use Rattle.shline.specs.Limits.{wants_memory};
ghost use Rattle.shgrammar.specs.Scripts.{first_fault_from};
ghost use Rattle.shread.specs.Answers.{Tells};

use crate::error::ReadError;
use shgrammar::{Edition, Fault, Keep};
use shline::{Begin, NO_TREE, ParsedLine, ReadOptions, Stop, line_at};
use shsource::Source;
use std::alloc::Global;
use std::mem;

/// The line at an offset, of which nothing is kept.
fn see_line<S: Source>(
    alloc: Global,
    edition: Edition,
    source: &S,
    at: usize,
) -> Result<ParsedLine, Stop>
    requires { at ≤ length (S.bytes source.now) }
    ensures value { Tells edition (S.bytes source.now) at result }
    ensures fits { IfOk result (λ told. at + told.len < 2 ^ 64) }
{
    let begin = Begin {
        at,
        origin: at,
        blank: false,
    };
    let how = ReadOptions {
        keep: Keep::Nothing,
        edition,
    };
    line_at::<S, NO_TREE>(alloc, source, begin, how, None)
}

/// The first fault of a script. One without a byte wants no memory, nor does one without a `<`.
#[tactic(auto, using(crate::proofs::NothingRead::no_fault))]
pub(crate) fn first_fault_of<S: Source>(
    alloc: Global,
    edition: Edition,
    source: &S,
) -> Result<Option<Fault>, ReadError>
    ensures fault { IfOk result (λ fault. fault ≡ first_fault_from edition (S.bytes source.now) 0) }
    ensures within { IfOk result (λ fault. IfSome fault (λ f. f.at ≤ length (S.bytes source.now))) }
    ensures empty { length (S.bytes source.now) ≡ 0 → IsOk result }
    ensures memory { IfErr result (λ e. wants_memory NO_TREE (S.bytes source.now) ≡ true) }
{
    if source.len() == 0 {
        return Ok(None);
    }
    let mut at = 0;
    'lines: loop {
        match see_line(alloc, edition, source, at) {
            Ok(told) => {
                // They hold no memory.
                mem::forget(told.entries);
                if !told.newline {
                    return Ok(None);
                }
                at += told.len;
            }
            Err(stop) => return Ok(Some(stop.fault()?)),
        }
    }
}
