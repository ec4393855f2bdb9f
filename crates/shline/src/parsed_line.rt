//! What is told of one line of a source (XCU 2.10.2).
ghost use Rattle.std.specs.Prelude.{◌≡◌, ◌⊎◌, ◌+◌, ◌-◌, ◌^◌, ◌<◌, ◌≤◌, ℕ, drop, false, length, map, true, IfOk};
ghost use Rattle.shgrammar.specs.Characters.{newline_char};
ghost use Rattle.shline.specs.Clauses.{Gives, kept, Onward, view_told};
ghost use Rattle.shline.specs.Limits.{limits};
ghost use Rattle.shgrammar.specs.Scripts.{line_told};
ghost use Rattle.shgrammar.specs.Standing.{raw_stands};
ghost use Rattle.shast.specs.Nodes.{NodesWithin};
ghost use Rattle.shast.specs.Tree.{entries_of};
ghost use Rattle.shast.specs.View.{view_entry};

use crate::cursor::{Cursor, ReadOptions};
use crate::line::filled_entries;
use crate::stop::Stop;
use shast::Entry;
use shmake::Spare;
use shsource::Source;
use std::alloc::Global;

/// How many constructs may be open.
const MOST_OPEN: usize = 100;

/// Where a line begins.
#[derive(Clone, Copy)]
pub struct Begin {
    /// Its offset.
    pub at: usize,
    /// From where its own offsets are counted.
    pub origin: usize,
    /// Its first entry is blank.
    pub blank: bool,
}

/// What was read of a line that has no fault.
#[derive(Debug, Drop)]
pub struct ParsedLine {
    /// Its entries, with spans that count from `origin` of [`line_at`].
    pub entries: Vec<Entry>,
    /// A newline ends it.
    pub newline: bool,
    /// How many bytes it has.
    pub len: usize,
}

/// The line that begins at a place, read so. Of its tree that is kept where `TREE` is
/// [`WITH_TREE`](crate::WITH_TREE), and nothing where it is `NO_TREE`. Its vectors are taken from spare ones,
/// as far as there are any.
///
/// A fault and want of memory are the two errors. The offset is at most the length of the source, and
/// `origin` at most the offset.
#[tactic(auto, unfolding(shgrammar::specs::Lines::a_line, shgrammar::specs::Standing::raw_stands), using(shgrammar::proofs::Places::end_is, crate::proofs::EmptyLine::newline_told, crate::proofs::EmptyLine::newline_stands))]
pub fn line_at<'a, S: Source, const TREE: u8>(
    alloc: Global,
    source: &'a S,
    begin: Begin,
    how: ReadOptions,
    spare: Option<&'a mut Spare>,
) -> Result<ParsedLine, Stop>
    requires { (begin.at ≤ length (S.bytes source.now)) × (begin.origin ≤ begin.at) }
    ensures value { Gives (limits TREE begin.origin (drop begin.at (S.bytes source.now))) view_told
        result (line_told how.edition (S.bytes source.now) (kept TREE how.keep) begin.blank begin.at
        begin.origin) }
    // No node of its entries names an offset past it.
    ensures spans { IfOk result (λ x. (limit : ℕ) → begin.origin + x.len ≤ limit → NodesWithin limit
        (entries_of (map view_entry x.entries.items))) }
    ensures onward { IfOk result (λ x. Onward 0 x.len x.newline) }
    ensures within { IfOk result (λ x. begin.at + x.len ≤ length (S.bytes source.now)) }
    ensures fits { IfOk result (λ x. begin.at + x.len < 2 ^ 64) }
    ensures newline { IfOk result (λ x. x.newline ≡ true → (raw_stands (drop begin.at (S.bytes
        source.now)) (x.len - 1) newline_char ≡ true) ⊎
        (begin.at + x.len ≡ length (S.bytes source.now))) }
    ensures whole { IfOk result
        (λ x. x.newline ≡ false → begin.at + x.len ≡ length (S.bytes source.now)) }
{
    // The length is asked for its bound alone, as where a cursor is made.
    let _ = source.len();
    // Many lines are empty: they need no cursor.
    if let Some(b'\n') = source.byte(begin.at) {
        return Ok(ParsedLine {
            entries: Vec::new(alloc),
            newline: true,
            len: 1,
        });
    }
    let mut cursor = Cursor::<S, TREE>::at_line(alloc, source, begin, how, spare);
    // It holds no here-document yet: the line's level is its own.
    let (entries, newline) = cursor.open_line(begin.blank, MOST_OPEN)?;
    let len = cursor.begin + cursor.at;
    Ok(ParsedLine {
        entries: filled_entries(entries, cursor.documents.bodies),
        newline,
        len,
    })
}
