//! What each job has: its memory, its dice, what makes its scripts, and the digest of its results.
use crate::dice::Dice;
use crate::digest::Digest;
use crate::maker::Maker;
use shprint::Layout;
use std::alloc::{AllocError, Global};

/// How often a job does what it does.
#[derive(Clone, Copy, PartialEq, Eq)]
pub(crate) enum Scale {
    /// As often as it is timed.
    Whole,
    /// A few times, so that it runs.
    Tried,
}

/// What a job has.
#[derive(Drop)]
pub(crate) struct Load {
    pub(crate) alloc: Global,
    pub(crate) dice: Dice,
    pub(crate) maker: Maker,
    pub(crate) digest: Digest,
    scale: Scale,
}

impl Load {
    /// What the seed decides.
    pub(crate) fn new(alloc: Global, seed: u64, scale: Scale) -> Result<Load, AllocError> {
        let mut dice = Dice::new(seed);
        let maker = Maker::new(alloc, &mut dice)?;
        Ok(Load {
            alloc,
            dice,
            maker,
            digest: Digest::new(),
            scale,
        })
    }

    /// So many times, or few where the job is tried.
    pub(crate) fn times(&self, count: usize) -> usize {
        match self.scale {
            Scale::Whole => count,
            Scale::Tried => (count / 100).max(1),
        }
    }

    /// So many bytes, or few where the job is tried.
    pub(crate) fn bytes(&self, count: usize) -> usize {
        match self.scale {
            Scale::Whole => count,
            Scale::Tried => count / 64,
        }
    }

    /// Makes a script of so many bytes in the place of what `into` holds.
    pub(crate) fn make(&mut self, len: usize, into: &mut Vec<u8>) -> Result<(), AllocError> {
        self.maker.make(&mut self.dice, len, false, into)
    }

    /// Makes a script of so many bytes that is one function, in the place of what `into` holds.
    pub(crate) fn make_whole(&mut self, len: usize, into: &mut Vec<u8>) -> Result<(), AllocError> {
        self.maker.make(&mut self.dice, len, true, into)
    }

    /// The size of a script as they lie on disks: half have less than 1.5 kB, nine in ten less than 7 kB, one in a hundred more than 41 kB.
    pub(crate) fn small_len(&mut self) -> usize {
        match self.dice.below(100) {
            0..50 => self.dice.between(200, 1_500),
            50..90 => self.dice.between(1_500, 7_000),
            90..99 => self.dice.between(7_000, 41_000),
            _ => self.dice.between(41_000, 200_000),
        }
    }

    /// The size of a `configure`.
    pub(crate) fn large_len(&mut self) -> usize {
        let len = self.dice.between(600_000, 2_500_000);
        self.bytes(len)
    }

    /// A layout. There is none only for an indent that is not asked for.
    pub(crate) fn layout(&mut self) -> Option<Layout> {
        let indent = match self.dice.below(3) {
            0 => 0,
            1 => 2,
            _ => 4,
        };
        let choices = self.dice.below(8);
        Layout::new(indent, choices & 1 == 1, choices & 2 == 2, choices & 4 == 4).ok()
    }
}
