//! Some lines that ended, with the sum of their bytes.
ghost use Rattle.std.specs.Prelude.{◌≡◌, ◌+◌, ◌-◌, ◌<◌, ◌≤◌, ◌^◌, ◌++◌, ◌∷◌, [], List as Row, IfErr, IfOk, OnErr, OnOk, drop, length, take, vec_len};
ghost use Rattle.shwindow.specs.Lines.{extent};
ghost use Rattle.shwindow.specs.declared.line.HeldLine.{HeldLine};

use crate::items::exchange;
use crate::line::HeldLine;
use std::alloc::{AllocError, Global};
use std::marker::Model;

/// The most lines that a block has.
pub(crate) const MOST_LINES: usize = 512;

/// Lines that ended, one after the other. There is one at least.
#[derive(Drop)]
pub(crate) struct Block<K> {
    lines: Vec<HeldLine<K>>,
    /// How many bytes they have.
    len: usize,
}

impl<K> Model for Block<K> {
    ghost use Rattle.std.specs.Prelude.{◌≡◌, ◌<◌, List as Row, length};
    ghost use Rattle.shwindow.specs.Lines.{extent};
    ghost use Rattle.shwindow.specs.declared.line.HeldLine.{HeldLine};

    ghost Value = { Row (HeldLine K) };

    ghost view = { λ block. block.lines.items };

    ghost invariant = { λ block. (block.len ≡ extent block.lines.items)
        × (0 < length block.lines.items) };
}

impl<K: Drop> Block<K> {
    /// One line.
    #[tactic(auto, unfolding(crate::specs::Lines::extent))]
    pub(crate) fn new(alloc: Global, line: HeldLine<K>) -> Result<Block<K>, AllocError>
        ensures { IfOk result (λ block. block ≡ line ∷ []) }
    {
        let len = line.len;
        let mut lines = Vec::new(alloc);
        lines.push(line)?;
        Ok(Block { lines, len })
    }

    /// The lines.
    pub(crate) fn lines(&self) -> &[HeldLine<K>]
        ensures lines { result.now ≡ self.now }
        ensures some { 0 < length self.now }
    {
        &self.lines
    }

    /// How many bytes they have.
    pub(crate) fn len(&self) -> usize
        ensures { result ≡ extent self.now }
    {
        self.len
    }

    /// The lines, as they are held.
    pub(crate) fn into_lines(self) -> Vec<HeldLine<K>>
        ensures { result.items ≡ self }
    {
        self.lines
    }

    /// Adds a line.
    #[tactic(auto, using(crate::proofs::Rows::extent_push))]
    pub(crate) fn push(&mut self, line: HeldLine<K>) -> Result<(), AllocError>
        requires { extent self.old + line.len < 2 ^ 64 }
        ensures ok { OnOk result (self.new ≡ self.old ++ line ∷ []) }
        ensures err { OnErr result (self.new ≡ self.old) }
    {
        let len = line.len;
        self.lines.push(line)?;
        self.len += len;
        Ok(())
    }

    /// Cuts it before a line that is not the first, and answers the lines from that one on.
    #[tactic(auto, using(crate::proofs::Rows::extent_split))]
    pub(crate) fn cut(&mut self, at: usize) -> Result<Block<K>, AllocError>
        requires some { 0 < at }
        requires within { at < length self.old }
        ensures ok { IfOk result (λ block. block ≡ drop at self.old) }
        ensures kept { OnOk result (self.new ≡ take at self.old) }
        ensures err { OnErr result (self.new ≡ self.old) }
    {
        let lines = self.lines.split_off(at)?;
        let len = bytes_of(&lines);
        self.len -= len;
        Ok(Block { lines, len })
    }

    /// Keeps the lines before one that is not the first.
    pub(crate) fn keep(&mut self, count: usize)
        requires some { 0 < count }
        requires within { count ≤ length self.old }
        ensures { self.new ≡ take count self.old }
    {
        let gone = bytes_of(&self.lines[count..]);
        self.lines.truncate(count);
        self.len -= gone;
    }

    /// Puts other lines in the place of those from `from` up to `to`. Some are left. Where as many come
    /// as go, no other line moves, and no memory is wanted.
    pub(crate) fn replace(
        &mut self,
        from: usize,
        to: usize,
        new: Vec<HeldLine<K>>,
    ) -> Result<(), AllocError>
        requires order { from ≤ to }
        requires within { to ≤ length self.old }
        requires some { to - from < length self.old + vec_len new }
        requires fits { extent (take from self.old ++ (new.items ++ drop to self.old)) < 2 ^ 64 }
        ensures ok { OnOk result
            (self.new ≡ take from self.old ++ (new.items ++ drop to self.old)) }
        ensures err { OnErr result (self.new ≡ self.old) }
    {
        let gone = bytes_of(&self.lines[from..to]);
        let come = bytes_of(&new);
        exchange(&mut self.lines, from, to, new)?;
        self.len = self.len - gone + come;
        Ok(())
    }

    /// Adds the lines of another, or gives them back where memory is wanting.
    #[tactic(auto, using(crate::proofs::Rows::extent_append))]
    pub(crate) fn append(&mut self, mut other: Block<K>) -> Result<(), Block<K>>
        requires { extent self.old + extent other < 2 ^ 64 }
        ensures ok { OnOk result (self.new ≡ self.old ++ other) }
        ensures err { OnErr result (self.new ≡ self.old) }
        ensures back { IfErr result (λ block. block ≡ other) }
    {
        if self.lines.reserve(other.lines.len()).is_err() {
            return Err(other);
        }
        let Block { mut lines, len } = other;
        let _ = self.lines.append(&mut lines);
        self.len += len;
        Ok(())
    }

    /// The first line that ends after an offset, and where it begins; the place after the lines and where
    /// that is, if none does. The block begins at another offset.
    pub(crate) fn find(&self, begin: usize, at: usize) -> (usize, usize)
        requires low { begin ≤ at }
        requires fits { begin + extent self.now < 2 ^ 64 }
        ensures within { result.0 ≤ length self.now }
        ensures begin { result.1 ≡ begin + extent (take result.0 self.now) }
        ensures low { result.1 ≤ at }
        ensures past { result.0 < length self.now →
            at < begin + extent (take (result.0 + 1) self.now) }
    {
        let mut begin = begin;
        'lines: for (index, line) in self.lines.iter().enumerate() {
            if at < begin + line.len {
                return (index, begin);
            }
            begin += line.len;
        }
        (self.lines.len(), begin)
    }
}

/// How many bytes lines have.
fn bytes_of<K>(lines: &[HeldLine<K>]) -> usize
    requires { extent lines.now < 2 ^ 64 }
    ensures { result ≡ extent lines.now }
{
    let mut len = 0;
    'lines: for line in lines {
        len += line.len;
    }
    len
}
