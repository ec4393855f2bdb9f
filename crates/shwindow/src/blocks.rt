//! Lines that ended, in blocks, so that neither finding a line nor replacing some
//! walks over all of them or moves them.
ghost use Rattle.std.specs.Prelude.{◌≡◌, ◌+◌, ◌-◌, ◌<◌, ◌≤◌, ◌^◌, ◌++◌, ◌∷◌, [], ℕ, List as Row, OnErr, OnOk, IfOk, IfSome, IsSome, drop, false, length, option_map, take, vec_capacity, vec_len};
ghost use Rattle.shwindow.specs.Blocks.{IsPlace, block_at, first_of, in_one_row, lines_before, lines_from};
ghost use Rattle.shwindow.specs.Places.{IsNotAfter};
ghost use Rattle.shwindow.specs.Lines.{extent};
ghost use Rattle.shwindow.specs.declared.line.HeldLine.{HeldLine};

use crate::block::{Block, MOST_LINES};
use crate::line::HeldLine;
use crate::place::BlockPlace;
use std::alloc::{AllocError, Global};

/// Lines that ended, in order.
#[derive(Drop)]
pub(crate) struct Blocks<K> {
    pub(crate) alloc: Global,
    pub(crate) blocks: Vec<Block<K>>,
}

impl<K: Drop> Blocks<K> {
    /// No line. It takes no memory.
    #[tactic(auto, unfolding(crate::specs::Blocks::in_one_row))]
    pub(crate) fn new(alloc: Global) -> Blocks<K>
        ensures { in_one_row result.blocks.items ≡ [] }
    {
        Blocks {
            alloc,
            blocks: Vec::new(alloc),
        }
    }

    /// Adds a line at the end.
    pub(crate) fn push(&mut self, line: HeldLine<K>) -> Result<(), AllocError>
        requires { extent (in_one_row self.old.blocks.items) + line.len < 2 ^ 64 }
        ensures { OnOk result (in_one_row self.new.blocks.items ≡ in_one_row self.old.blocks.items
            ++ line ∷ []) }
    {
        if self.is_full() {
            let block = Block::new(self.alloc, line)?;
            self.blocks.push(block)?;
            return Ok(());
        }
        let last = self.blocks.len() - 1;
        let block = &mut self.blocks[last];
        block.push(line)
    }

    /// Whether one more line wants one more block.
    fn is_full(&self) -> bool
        ensures { result ≡ false → 0 < vec_len self.now.blocks }
    {
        match self.blocks.last() {
            Some(block) => block.lines().len() >= MOST_LINES,
            None => true,
        }
    }

    /// The line at a place; none after all of them.
    pub(crate) fn line(&self, place: BlockPlace) -> Option<&HeldLine<K>>
        requires { IsPlace self.now.blocks.items place }
        ensures { option_map (λ line. line.now) result
            ≡ first_of (lines_from self.now.blocks.items place) }
    {
        if place.block == self.blocks.len() {
            return None;
        }
        let block = &self.blocks[place.block];
        let lines = block.lines();
        Some(&lines[place.line])
    }

    /// The place after a line.
    pub(crate) fn after(&self, place: BlockPlace) -> BlockPlace
        requires place { IsPlace self.now.blocks.items place }
        requires within { place.block < vec_len self.now.blocks }
        ensures place { IsPlace self.now.blocks.items result }
        ensures order { IsNotAfter place result }
        ensures rest { (line : HeldLine K)
            × (lines_from self.now.blocks.items place ≡ line
            ∷ lines_from self.now.blocks.items result) }
    {
        let block = &self.blocks[place.block];
        let last = block.lines().len() - 1;
        if place.line < last {
            BlockPlace {
                block: place.block,
                line: place.line + 1,
            }
        } else {
            BlockPlace {
                block: place.block + 1,
                line: 0,
            }
        }
    }

    /// How many lines there are, if they are in one block at most.
    pub(crate) fn few(&self) -> Option<usize>
        ensures few { IsSome result → vec_len self.now.blocks ≤ 1 }
        ensures count { IfSome result (λ n. n ≡ length (in_one_row self.now.blocks.items)) }
    {
        match self.blocks.len() {
            0 => Some(0),
            1 => Some(self.blocks[0].lines().len()),
            _ => None,
        }
    }

    /// The lines, which are in one block at most.
    pub(crate) fn into_lines(self) -> Vec<HeldLine<K>>
        requires { vec_len self.blocks ≤ 1 }
        ensures { result.items ≡ in_one_row self.blocks.items }
    {
        let Blocks { alloc, mut blocks } = self;
        match blocks.pop() {
            Some(block) => block.into_lines(),
            None => Vec::new(alloc),
        }
    }

    /// The place after all of them.
    pub(crate) fn end(&self) -> BlockPlace
        ensures place { IsPlace self.now.blocks.items result }
        ensures block { result.block ≡ vec_len self.now.blocks }
        ensures rest { lines_from self.now.blocks.items result ≡ [] }
    {
        BlockPlace {
            block: self.blocks.len(),
            line: 0,
        }
    }

    /// The first line that ends after an offset, and where it begins; the place
    /// after all of them, if none does.
    pub(crate) fn find(&self, at: usize) -> (BlockPlace, usize)
        requires { extent (in_one_row self.now.blocks.items) < 2 ^ 64 }
        ensures place { IsPlace self.now.blocks.items result.0 }
        ensures begin { result.1 ≡ extent (lines_before self.now.blocks.items result.0) }
        ensures low { result.1 ≤ at }
        ensures past { (line : HeldLine K) (lines : Row (HeldLine K)) →
            lines_from self.now.blocks.items result.0 ≡ line ∷ lines →
            at < result.1 + line.len }
    {
        let mut begin = 0;
        'all: for (index, block) in self.blocks.iter().enumerate() {
            if at < begin + block.len() {
                let (line, begin) = block.find(begin, at);
                return (BlockPlace { block: index, line }, begin);
            }
            begin += block.len();
        }
        (self.end(), begin)
    }

    /// Cuts a block before a line, unless that is its first, and answers the block
    /// that begins there. No line changes.
    pub(crate) fn cut(&mut self, place: BlockPlace) -> Result<usize, AllocError>
        requires { IsPlace self.old.blocks.items place }
        ensures before { IfOk result
            (λ n. in_one_row (take n self.new.blocks.items)
            ≡ lines_before self.old.blocks.items place) }
        ensures from { IfOk result
            (λ n. in_one_row (drop n self.new.blocks.items)
            ≡ lines_from self.old.blocks.items place) }
        ensures front { OnOk result
            (take place.block self.new.blocks.items ≡ take place.block self.old.blocks.items) }
        ensures order { IfOk result
            (λ n. (place.block ≤ n) × (n ≤ vec_len self.new.blocks)
            × (0 < place.line → n ≡ place.block + 1)) }
        ensures head { OnOk result
            (take place.line (block_at self.new.blocks.items place.block)
            ≡ take place.line (block_at self.old.blocks.items place.block)) }
        ensures err { OnErr result (self.new.blocks.items ≡ self.old.blocks.items) }
    {
        if place.line == 0 {
            return Ok(place.block);
        }
        self.blocks.reserve(1)?;
        let block = &mut self.blocks[place.block];
        let after = block.cut(place.line)?;
        put_one(&mut self.blocks, place.block + 1, after);
        Ok(place.block + 1)
    }

    /// Makes one block of a block and the next one, if they have few lines and there
    /// is memory. No line changes.
    pub(crate) fn merge(&mut self, first: usize)
        requires { extent (in_one_row self.old.blocks.items) < 2 ^ 64 }
        ensures { in_one_row self.new.blocks.items ≡ in_one_row self.old.blocks.items }
    {
        if self.blocks.len().saturating_sub(first) < 2 {
            return;
        }
        let count = self.blocks[first].lines().len();
        let moved = self.blocks[first + 1].lines().len();
        if count.saturating_add(moved) > MOST_LINES {
            return;
        }
        let moved = self.blocks.remove(first + 1);
        let block = &mut self.blocks[first];
        if let Err(moved) = block.append(moved) {
            put_one(&mut self.blocks, first + 1, moved);
        }
    }
}

/// Puts an item in at a place. There is room for it.
fn put_one<T: Drop>(into: &mut Vec<T>, at: usize, item: T)
    requires within { at ≤ vec_len into.old }
    requires room { vec_len into.old < vec_capacity into.old }
    ensures { into.new.items ≡ take at into.old.items ++ item ∷ drop at into.old.items }
{
    let _ = into.insert(at, item);
}
