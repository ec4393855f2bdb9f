//! One line of a source, alone or as a script of its own.
ghost use Rattle.std.specs.Prelude.{◌≡◌, ◌+◌, ◌-◌, ◌<◌, ◌≤◌, drop, false, length, map, true, IfOk, IsOk};
ghost use Rattle.shread.specs.Answers.{view_kind, view_line};
ghost use Rattle.shgrammar.specs.Lines.{FaultWithin, kind_of};
ghost use Rattle.shgrammar.specs.Scripts.{line_of_text};
ghost use Rattle.shast.specs.View.{view_entry};

use crate::error::ReadError;
use crate::reader::{Line, LineKind};
use shast::Entry;
use shgrammar::{Edition, Keep};
use shline::{Begin, ReadOptions, WITH_TREE, line_at};
use shmake::make::list_of;
use shpass::ends_in_newline;
use shsource::Source;
use std::alloc::Global;

/// What a line without fault is.
#[tactic(auto, using(shgrammar::proofs::LineKinds::kind_of_none, shgrammar::proofs::LineKinds::kind_of_some))]
fn line_kind(entries: Vec<Entry>, newline: bool) -> LineKind
    ensures { view_kind result ≡ kind_of (map view_entry entries.items) newline }
{
    if entries.len() > 0 {
        return LineKind::Entries(list_of(entries));
    }
    if newline {
        LineKind::Blank
    } else {
        LineKind::End
    }
}

/// The line that begins at an offset, read as a script of its own. At the length no memory is wanted.
#[tactic(auto, unfolding(shgrammar::specs::Scripts::line_of_text), using(shgrammar::proofs::LineKinds::nothing_left, shgrammar::proofs::LineKinds::no_fault_within))]
pub(crate) fn line_from<S: Source>(
    alloc: Global,
    edition: Edition,
    source: &S,
    at: usize,
) -> Result<Line, ReadError>
    requires { at ≤ length (S.bytes source.now) }
    ensures value { IfOk result
        (λ line. view_line at line ≡ line_of_text edition (drop at (S.bytes source.now))) }
    ensures next { IfOk result
        (λ line. (at ≤ line.next) × (line.next ≤ length (S.bytes source.now))) }
    ensures onward { IfOk result (λ line. line.ended ≡ true → at < line.next) }
    ensures whole { IfOk result
        (λ line. line.ended ≡ false → line.next ≡ length (S.bytes source.now)) }
    ensures fault { IfOk result (λ line. FaultWithin (line.next - at) (view_kind line.kind)) }
    ensures end { at ≡ length (S.bytes source.now) → IsOk result }
{
    let end = source.len();
    if at == end {
        return Ok(Line {
            kind: LineKind::End,
            next: end,
            ended: false,
        });
    }
    let begin = Begin {
        at,
        origin: 0,
        blank: false,
    };
    let how = ReadOptions {
        keep: Keep::Whole,
        edition,
    };
    match line_at::<S, WITH_TREE>(alloc, source, begin, how, None) {
        Ok(told) => {
            // The line of a delimiter may end with the source.
            let ended = told.newline && ends_in_newline(source, at, told.len);
            Ok(Line {
                kind: line_kind(told.entries, told.newline),
                next: at + told.len,
                ended,
            })
        }
        Err(stop) => Ok(Line {
            kind: LineKind::Faulty(stop.fault()?),
            next: end,
            ended: false,
        }),
    }
}
