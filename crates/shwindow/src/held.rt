//! All lines of a text.
ghost use Rattle.std.specs.Prelude.{◌≡◌, ◌+◌, ◌-◌, ◌<◌, ◌≤◌, ◌^◌, ◌++◌, ◌∷◌, [], ℕ, List, List as Row, IfOk, IsOk, OnErr, OnOk, length, true};
ghost use Rattle.shwindow.specs.Held.{HasLineAt, IsEdit, RoseByWindow, RoseWithinWindow};
ghost use Rattle.shwindow.specs.Lines.{IsRow, extent};
ghost use Rattle.shwindow.specs.Meter.{RoseWithin, risen};
ghost use Rattle.shwindow.specs.Walks.{lines_left};
ghost use Rattle.shwindow.specs.Window.{Apart};

use crate::blocks::Blocks;
use crate::line::{HeldLine, LineReader};
use crate::lines::Lines;
use crate::place::BlockPlace;
use crate::window::{Window, read_window};
use shsource::Source;
use std::alloc::{AllocError, Global};
use std::marker::Model;

/// The lines of a text, as they were read: lines that ended, and then one that did not, which may be empty.
#[derive(Drop)]
pub struct HeldLines<K> {
    blocks: Blocks<K>,
    last: HeldLine<K>,
}

impl<K> Model for HeldLines<K> {
    ghost use Rattle.std.specs.Prelude.{◌<◌, ◌^◌, ◌++◌, ◌∷◌, [], List as Row};
    ghost use Rattle.shwindow.specs.Blocks.{in_one_row};
    ghost use Rattle.shwindow.specs.Lines.{extent};
    ghost use Rattle.shwindow.specs.declared.line.HeldLine.{HeldLine};

    ghost Value = { Row (HeldLine K) };

    ghost view = { λ held. in_one_row held.blocks.blocks.items ++ held.last ∷ [] };

    ghost invariant = { λ held. extent
        (in_one_row held.blocks.blocks.items ++ held.last ∷ []) < 2 ^ 64 };
}

impl<K: Drop> HeldLines<K> {
    /// Reads all lines of a text. A text without a byte takes no memory, but what its one line takes.
    ///
    /// Want of memory is the only error: then no more was read than the text has.
    pub fn read<R: LineReader<K>, S: Source>(
        alloc: Global,
        reader: &mut R,
        source: &S,
    ) -> Result<HeldLines<K>, AllocError>
        ensures row { IfOk result (λ held.
            IsRow (R.is_line (R.setting reader.old)) (S.bytes source.now) held) }
        ensures setting { R.setting reader.new ≡ R.setting reader.old }
        ensures meter { OnOk result
            (R.meter reader.new ≡ risen (R.meter reader.old) (length (S.bytes source.now))) }
        ensures err { OnErr result
            (RoseWithin (length (S.bytes source.now)) (R.meter reader.old) (R.meter reader.new)) }
        ensures empty { length (S.bytes source.now) ≡ 0 → IsOk result }
    {
        let mut blocks = Blocks::new(alloc);
        let mut at = 0;
        'lines: loop {
            let line = reader.read_line(source, at)?;
            if !line.ended {
                return Ok(HeldLines { blocks, last: line });
            }
            at += line.len;
            blocks.push(line)?;
        }
    }

    /// Mends the lines after an edit of their text. The source is the new text: its
    /// bytes before `start` are the old ones, and those from `end` on are the old ones
    /// from `old_end` on. Only the window of the edit is read.
    ///
    /// Want of memory is the only error: the lines are then as before, and no more was
    /// read than the window has.
    pub fn edit<R: LineReader<K>, S: Source>(
        &mut self,
        reader: &mut R,
        source: &S,
        start: usize,
        end: usize,
        old_end: usize,
    ) -> Result<(), AllocError>
        requires { IsEdit (R.is_line (R.setting reader.old)) self.old (S.bytes source.now)
            start end old_end }
        ensures row { OnOk result (
            IsRow (R.is_line (R.setting reader.old)) (S.bytes source.now) self.new) }
        ensures kept { OnErr result (self.new ≡ self.old) }
        ensures setting { R.setting reader.new ≡ R.setting reader.old }
        ensures meter { OnOk result ((B : List ℕ) →
            IsRow (R.is_line (R.setting reader.old)) B self.old →
            Apart B (S.bytes source.now) start end old_end →
            RoseByWindow (R.is_line (R.setting reader.old)) B (S.bytes source.now)
            start end old_end (R.meter reader.old) (R.meter reader.new)) }
        ensures rises { R.meter reader.old ≤ R.meter reader.new }
        ensures err { OnErr result ((B : List ℕ) →
            IsRow (R.is_line (R.setting reader.old)) B self.old →
            Apart B (S.bytes source.now) start end old_end →
            RoseWithinWindow (R.is_line (R.setting reader.old)) B (S.bytes source.now)
            start end old_end (R.meter reader.old) (R.meter reader.new)) }
    {
        let (place, begin) = self.blocks.find(start);
        let old = Lines::new(&self.blocks, &self.last, place);
        let alloc = self.blocks.alloc;
        let Window { lines, upto, last } = read_window(
            alloc, reader, source, old, begin, end, old_end,
        )?;
        self.blocks.replace_lines(place, upto, lines)?;
        let Some(last) = last else {
            return Ok(());
        };
        self.last = last;
        Ok(())
    }

    /// The line that did not end: the rest of the text.
    pub fn last(&self) -> &HeldLine<K>
        ensures { (lines : Row (HeldLine K)) × (self.now ≡ lines ++ result.now ∷ []) }
    {
        &self.last
    }

    /// The line in which an offset lies, and where that begins: the first line that
    /// ends after it, or the last line.
    pub fn line_at(&self, at: usize) -> (&HeldLine<K>, usize)
        ensures { HasLineAt self.now at result.0.now result.1 }
    {
        let (place, begin) = self.blocks.find(at);
        match self.blocks.line(place) {
            Some(line) => (line, begin),
            None => (&self.last, begin),
        }
    }

    /// The lines in order.
    pub fn lines(&self) -> Lines<'_, K>
        ensures { lines_left result ≡ self.now }
    {
        Lines::new(&self.blocks, &self.last, BlockPlace { block: 0, line: 0 })
    }
}
