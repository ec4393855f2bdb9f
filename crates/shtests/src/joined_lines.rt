//! The list of a whole text, joined from the lists of its lines.
ghost use Rattle.std.specs.Prelude.{◌≡◌, ℕ, ◌-◌, ◌<◌, ◌≤◌, ◌^◌, OnErr, OnOk};
ghost use Rattle.shast.specs.View.{view_list};
ghost use Rattle.shgrammar.specs.Lines.{EntrySpansWithin};
ghost use Rattle.shread.specs.Answers.{view_kind};
ghost use Rattle.shtests.specs.Joined.{with_line_at};

use shread::{Line, LineKind};
use shtree::{List, append_at};
use std::alloc::{AllocError, Global};

/// Appends the entries of a line that begins at an offset. After want of memory the list is as it was.
pub fn append_line(alloc: Global, line: &Line, at: usize, list: &mut List) -> Result<(), AllocError>
    requires place { (at ≤ line.now.next) × (line.now.next < 2 ^ 64) }
    requires spans { (limit : ℕ) → line.now.next - at ≤ limit →
        EntrySpansWithin limit (view_kind line.now.kind) }
    ensures ok { OnOk result
        (view_list list.new ≡ with_line_at at (view_list list.old) (view_kind line.now.kind)) }
    ensures err { OnErr result (view_list list.new ≡ view_list list.old) }
{
    match &line.kind {
        LineKind::Entries(entries) => append_at(alloc, entries, at, list),
        LineKind::Blank | LineKind::End => Ok(()),
        LineKind::Faulty(_) => Ok(()),
    }
}
