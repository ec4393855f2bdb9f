//! A text in a buffer, and the same in a vector.

use crate::dice::Dice;
use crate::spliced::{spliced, spliced_all};
use shtext::{Buffer, Splice, TextError};
use std::alloc::{AllocError, Global};

/// A buffer, and a vector with the bytes that it should have.
#[derive(Drop)]
pub struct Both {
    alloc: Global,
    /// The buffer.
    pub buffer: Buffer,
    /// Its bytes.
    pub bytes: Vec<u8>,
}

impl Both {
    /// Both with these bytes.
    pub fn of(alloc: Global, bytes: &[u8]) -> Result<Both, TextError> {
        Ok(Both {
            alloc,
            buffer: Buffer::from_slice(alloc, bytes)?,
            bytes: Vec::from_slice(alloc, bytes)?,
        })
    }

    /// The bytes with others in the place of those from `a` up to `b`.
    pub fn made(&self, a: usize, b: usize, new: &[u8]) -> Result<Vec<u8>, AllocError> {
        spliced(self.alloc, &self.bytes, a, b, new)
    }

    /// The bytes with splices made together.
    pub fn all_made(&self, splices: &[Splice<'_>]) -> Result<Vec<u8>, AllocError> {
        spliced_all(self.alloc, &self.bytes, splices)
    }

    /// Puts bytes in the place of those from `a` up to `b` in both, and answers those.
    pub fn edit(&mut self, a: usize, b: usize, new: &[u8]) -> Result<Vec<u8>, TextError> {
        let change = self.buffer.prepare(a, b, new)?;
        let old = Vec::from_slice(self.alloc, self.bytes.get(a..b).unwrap_or(b""))?;
        let made = self.made(a, b, new)?;
        self.buffer.commit(change);
        self.bytes = made;
        Ok(old)
    }

    /// The start and the end of so many bytes at most, at a random place.
    pub fn part(&self, dice: &mut Dice, most: usize) -> (usize, usize) {
        let a = dice.below(self.bytes.len().saturating_add(1));
        let b = a.saturating_add(dice.below(most)).min(self.bytes.len());
        (a, b)
    }
}
