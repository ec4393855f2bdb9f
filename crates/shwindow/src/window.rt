//! The reading of the window of an edit.
ghost use Rattle.std.specs.Prelude.{◌≡◌, ◌+◌, ◌-◌, ◌<◌, ◌≤◌, ◌^◌, ◌++◌, ◌∷◌, [], ℕ, List, IfOk, OnErr, drop, false, length, true};
ghost use Rattle.shwindow.specs.Blocks.{IsPlace, lines_from};
ghost use Rattle.shwindow.specs.Hand.{Passes};
ghost use Rattle.shwindow.specs.Lines.{IsRow, extent};
ghost use Rattle.shwindow.specs.Meter.{RoseWithin, risen};
ghost use Rattle.shwindow.specs.Places.{IsNotAfter};
ghost use Rattle.shwindow.specs.Reading.{IsBegun, lines_then, read_of};
ghost use Rattle.shwindow.specs.Walks.{lines_left};
ghost use Rattle.shwindow.specs.Window.{Ends};

use crate::blocks::Blocks;
use crate::line::{HeldLine, LineReader};
use crate::lines::Lines;
use crate::place::BlockPlace;
use shsource::Source;
use std::alloc::{AllocError, Global};

/// What was read of a window.
#[derive(Drop)]
pub(crate) struct Window<K> {
    /// The lines that ended.
    pub(crate) lines: Blocks<K>,
    /// The old lines before this place give way, and those from it on stay.
    pub(crate) upto: BlockPlace,
    /// The line that did not end, where the window reaches the end of the text.
    pub(crate) last: Option<HeldLine<K>>,
}

/// The old lines in hand, and where they begin.
#[derive(Drop)]
struct Hand<'a, K> {
    lines: Lines<'a, K>,
    begin: usize,
}

impl<'a, K: Drop> Hand<'a, K> {
    /// Passes the old lines that begin before an offset.
    fn pass(&mut self, at: usize)
        requires { self.old.begin + extent (lines_left self.old.lines) < 2 ^ 64 }
        ensures passes { Passes at self.old.begin (lines_left self.old.lines) self.new.begin
            (lines_left self.new.lines) }
        ensures past { (lines_left self.new.lines ≡ [] → ⊥) → at ≤ self.new.begin }
        ensures blocks { self.new.lines.blocks ≡ self.old.lines.blocks }
        ensures last { self.new.lines.last ≡ self.old.lines.last }
        ensures order { IsNotAfter self.old.lines.place self.new.lines.place }
    {
        'lines: while self.begin < at {
            let Some(line) = self.lines.step() else {
                return;
            };
            self.begin += line.len;
        }
    }

    /// Whether an offset of the new text is at or past the end of the new bytes, and
    /// an old line begins at its old place.
    fn meets(&self, at: usize, end: usize, old_at: usize) -> bool
        ensures met { result ≡ true → (end ≤ at) × (self.now.begin ≡ old_at) ×
            (lines_left self.now.lines
            ≡ lines_from self.now.lines.blocks.now.blocks.items self.now.lines.place
            ++ self.now.lines.last.now ∷ []) }
        ensures not_met { result ≡ false → end ≤ at → self.now.begin ≡ old_at →
            lines_left self.now.lines ≡ [] }
    {
        if self.lines.past {
            return false;
        }
        end <= at && self.begin == old_at
    }
}

/// Reads the window of an edit that puts the bytes of `source` before `end` in the place of the old ones
/// before `old_end`. The window begins at an offset where the old lines begin that are handed over.
///
/// Want of memory is the only error: then no more was read than the window has.
pub(crate) fn read_window<K: Drop, R: LineReader<K>, S: Source>(
    alloc: Global,
    reader: &mut R,
    source: &S,
    old: Lines<'_, K>,
    begin: usize,
    end: usize,
    old_end: usize,
) -> Result<Window<K>, AllocError>
    requires begun { (B : List ℕ) × (a : ℕ) ×
        IsBegun (R.is_line (R.setting reader.old)) B (S.bytes source.now)
        a end old_end begin (lines_left old) }
    requires fits { begin + extent (lines_left old) < 2 ^ 64 }
    ensures lines { IfOk result (λ w.
        IsRow (R.is_line (R.setting reader.old)) (drop begin (S.bytes source.now))
        (lines_then old.entry w)) }
    ensures place { IfOk result (λ w. IsPlace old.entry.blocks.now.blocks.items w.upto) }
    ensures order { IfOk result (λ w. IsNotAfter old.entry.place w.upto) }
    ensures ends { IfOk result (λ w. (B : List ℕ) (a : ℕ) →
        IsBegun (R.is_line (R.setting reader.old)) B (S.bytes source.now)
        a end old_end begin (lines_left old.entry) →
        Ends (R.is_line (R.setting reader.old)) B (S.bytes source.now)
        end old_end (begin + extent (read_of w))) }
    ensures setting { R.setting reader.new ≡ R.setting reader.old }
    ensures meter { IfOk result
        (λ w. R.meter reader.new ≡ risen (R.meter reader.old) (extent (read_of w))) }
    ensures rises { R.meter reader.old ≤ R.meter reader.new }
    ensures err { OnErr result ((B : List ℕ) (a t : ℕ) →
        IsBegun (R.is_line (R.setting reader.old)) B (S.bytes source.now)
        a end old_end begin (lines_left old.entry) →
        Ends (R.is_line (R.setting reader.old)) B (S.bytes source.now) end old_end t →
        RoseWithin (t - begin) (R.meter reader.old) (R.meter reader.new)) }
{
    let mut lines = Blocks::new(alloc);
    let mut at = begin;
    let mut hand = Hand { lines: old, begin };
    'lines: loop {
        let old_at = old_end + at.saturating_sub(end);
        hand.pass(old_at);
        if hand.meets(at, end, old_at) {
            return Ok(Window {
                lines,
                upto: hand.lines.place,
                last: None,
            });
        }
        let line = reader.read_line(source, at)?;
        if !line.ended {
            return Ok(Window {
                lines,
                upto: hand.lines.end(),
                last: Some(line),
            });
        }
        at += line.len;
        lines.push(line)?;
    }
}
