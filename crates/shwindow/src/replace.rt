//! Lines in blocks that give way to others.
ghost use Rattle.std.specs.Prelude.{◌≡◌, ◌+◌, ◌-◌, ◌<◌, ◌≤◌, ◌^◌, ◌++◌, ℕ, IfSome, OnErr, OnOk, drop, length, take, vec_capacity, vec_len};
ghost use Rattle.shwindow.specs.Blocks.{IsPlace, block_at, in_one_row, lines_before, lines_from};
ghost use Rattle.shwindow.specs.Lines.{extent};
ghost use Rattle.shwindow.specs.Places.{GivesWay, IsNotAfter, in_block};

use crate::block::MOST_LINES;
use crate::blocks::Blocks;
use crate::place::BlockPlace;
use shtext::replace_items;
use std::alloc::AllocError;

impl<K: Drop> Blocks<K> {
    /// Puts other lines in the place of those from one place up to another.
    pub(crate) fn replace_lines(
        &mut self,
        from: BlockPlace,
        upto: BlockPlace,
        new: Blocks<K>,
    ) -> Result<(), AllocError>
        requires from { IsPlace self.old.blocks.items from }
        requires upto { IsPlace self.old.blocks.items upto }
        requires order { IsNotAfter from upto }
        requires fits { extent (lines_before self.old.blocks.items from
            ++ (in_one_row new.blocks.items ++ lines_from self.old.blocks.items upto)) < 2 ^ 64 }
        ensures ok { OnOk result (in_one_row self.new.blocks.items ≡
            lines_before self.old.blocks.items from
            ++ (in_one_row new.blocks.items ++ lines_from self.old.blocks.items upto)) }
        ensures err { OnErr result
            (in_one_row self.new.blocks.items ≡ in_one_row self.old.blocks.items) }
    {
        if let Some(to) = self.end_by_count(from, upto, &new) {
            return self.replace_in_block(from, to, new);
        }
        let end = self.cut(upto)?;
        self.replace_from(from, end, new)
    }

    /// The line of a block before which lines give way, where all that do are lines of that
    /// block from a place on. It may be the one after the last.
    fn end_in_block(&self, from: BlockPlace, upto: BlockPlace) -> Option<usize>
        requires from { IsPlace self.now.blocks.items from }
        requires upto { IsPlace self.now.blocks.items upto }
        requires order { IsNotAfter from upto }
        ensures gives { IfSome result (λ to. GivesWay self.now.blocks.items from to) }
        ensures rest { IfSome result
            (λ to. lines_from self.now.blocks.items (in_block from to)
            ≡ lines_from self.now.blocks.items upto) }
    {
        if from.block == self.blocks.len() {
            return None;
        }
        if upto.block == from.block {
            return Some(upto.line);
        }
        if upto.line > 0 || upto.block > from.block + 1 {
            return None;
        }
        Some(self.blocks[from.block].lines().len())
    }

    /// The same, where few lines come and the block is left with some, but not with too many.
    fn end_by_count(&self, from: BlockPlace, upto: BlockPlace, new: &Blocks<K>) -> Option<usize>
        requires from { IsPlace self.now.blocks.items from }
        requires upto { IsPlace self.now.blocks.items upto }
        requires order { IsNotAfter from upto }
        ensures gives { IfSome result (λ to. GivesWay self.now.blocks.items from to) }
        ensures rest { IfSome result
            (λ to. lines_from self.now.blocks.items (in_block from to)
            ≡ lines_from self.now.blocks.items upto) }
        ensures few { IfSome result (λ _. vec_len new.now.blocks ≤ 1) }
        ensures some { IfSome result
            (λ to. to - from.line < length (block_at self.now.blocks.items from.block)
            + length (in_one_row new.now.blocks.items)) }
    {
        let count = new.few()?;
        let to = self.end_in_block(from, upto)?;
        let kept = self.blocks[from.block].lines().len() - (to - from.line);
        let left = kept.saturating_add(count);
        if left == 0 || left > MOST_LINES {
            return None;
        }
        Some(to)
    }

    /// Puts few lines in the place of those of a block from a place up to a line. The
    /// block is left with some.
    ///
    /// Neighbours are made one only where lines have become fewer: what is the rule,
    /// that one gives way to one, moves no line.
    fn replace_in_block(
        &mut self,
        from: BlockPlace,
        to: usize,
        new: Blocks<K>,
    ) -> Result<(), AllocError>
        requires gives { GivesWay self.old.blocks.items from to }
        requires few { vec_len new.blocks ≤ 1 }
        requires some { to - from.line < length (block_at self.old.blocks.items from.block)
            + length (in_one_row new.blocks.items) }
        requires fits { extent (lines_before self.old.blocks.items from
            ++ (in_one_row new.blocks.items ++ lines_from self.old.blocks.items (in_block from to)))
            < 2 ^ 64 }
        ensures ok { OnOk result (in_one_row self.new.blocks.items ≡
            lines_before self.old.blocks.items from
            ++ (in_one_row new.blocks.items
            ++ lines_from self.old.blocks.items (in_block from to))) }
        ensures err { OnErr result
            (in_one_row self.new.blocks.items ≡ in_one_row self.old.blocks.items) }
    {
        let lines = new.into_lines();
        let is_fewer = lines.len() < to - from.line;
        let block = &mut self.blocks[from.block];
        block.replace(from.line, to, lines)?;
        if is_fewer {
            self.merge(from.block);
            self.merge(from.block.saturating_sub(1));
        }
        Ok(())
    }

    /// Puts other lines in the place of those from a place up to a block. The place
    /// may be after the last line of its block.
    fn replace_from(
        &mut self,
        from: BlockPlace,
        to: usize,
        new: Blocks<K>,
    ) -> Result<(), AllocError>
        requires order { from.block ≤ to }
        requires within { to ≤ vec_len self.old.blocks }
        requires kept { 0 < from.line → (from.block < to)
            × (from.line ≤ length (block_at self.old.blocks.items from.block)) }
        requires fits { extent (lines_before self.old.blocks.items from
            ++ (in_one_row new.blocks.items ++ in_one_row (drop to self.old.blocks.items)))
            < 2 ^ 64 }
        ensures ok { OnOk result (in_one_row self.new.blocks.items ≡
            lines_before self.old.blocks.items from
            ++ (in_one_row new.blocks.items ++ in_one_row (drop to self.old.blocks.items))) }
        ensures err { OnErr result (self.new.blocks.items ≡ self.old.blocks.items) }
    {
        self.blocks.reserve(new.blocks.len())?;
        let first = self.keep_before(from, to);
        let end = first + new.blocks.len();
        replace_items(&mut self.blocks, first, to, new.blocks);
        // The pairs at both ends of what is new are tried, and the one before a block that was cut: from the
        // last to the first, since a merge moves those after it.
        self.merge(end);
        self.merge(end.saturating_sub(1));
        self.merge(first.saturating_sub(1));
        self.merge(first.saturating_sub(2));
        Ok(())
    }

    /// Takes the lines of a block from a place on, which is before another block, and
    /// answers the block after the lines that it keeps.
    fn keep_before(&mut self, place: BlockPlace, to: usize) -> usize
        requires order { place.block ≤ to }
        requires within { to ≤ vec_len self.old.blocks }
        requires kept { 0 < place.line → (place.block < to)
            × (place.line ≤ length (block_at self.old.blocks.items place.block)) }
        ensures order { result ≤ to }
        ensures before { in_one_row (take result self.new.blocks.items)
            ≡ lines_before self.old.blocks.items place }
        ensures rest { drop to self.new.blocks.items ≡ drop to self.old.blocks.items }
        ensures len { vec_len self.new.blocks ≡ vec_len self.old.blocks }
        ensures room { vec_capacity self.new.blocks ≡ vec_capacity self.old.blocks }
    {
        if place.line == 0 {
            return place.block;
        }
        let block = &mut self.blocks[place.block];
        block.keep(place.line);
        place.block + 1
    }
}
