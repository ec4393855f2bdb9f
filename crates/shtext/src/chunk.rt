//! Some bytes of a text, with the count of their newlines.
ghost use Rattle.std.specs.Prelude.{◌≡◌, ◌-◌, ◌≤◌, [], IfOk, count_by, drop, length, slice_range, take};
ghost use Rattle.shsource.specs.Text.{is_newline};
ghost use Rattle.shtext.specs.Chunks.{most};

use crate::copy::push_part;
use crate::count::newlines_in;
use shsource::Source;
use std::alloc::{AllocError, Global};
use std::marker::Model;

/// The most bytes that a chunk has, and so the longest stretch of a [`crate::Buffer`].
pub const CHUNK: usize = 4096;

/// The fewest bytes of a chunk that others follow. A chunk that is cut leaves twice as many in
/// each part, so that bytes that come and go by turns do not cut and join.
pub(crate) const FEWEST: usize = CHUNK / 4;

/// Bytes that stand one after the other, `CHUNK` at most. There is room for as many, so
/// that a chunk is filled again without memory.
#[derive(Debug, Drop)]
pub(crate) struct Chunk {
    bytes: Vec<u8>,
    newlines: usize,
}

impl Model for Chunk {
    ghost use Rattle.std.specs.Prelude.{◌≡◌, ◌≤◌, ℕ, List, count_by, length, vec_capacity};
    ghost use Rattle.shsource.specs.Text.{is_newline};
    ghost use Rattle.shtext.specs.Chunks.{most};

    ghost Value = { List ℕ };

    ghost view = { λ chunk. chunk.bytes.items };

    ghost invariant = { λ chunk. (chunk.newlines ≡ count_by is_newline chunk.bytes.items)
        × (length chunk.bytes.items ≤ most) × (most ≤ vec_capacity chunk.bytes) };
}

impl Chunk {
    /// A chunk with no bytes yet.
    pub(crate) fn new(alloc: Global) -> Result<Chunk, AllocError>
        ensures { IfOk result (λ chunk. chunk ≡ []) }
    {
        let bytes = Vec::with_capacity(alloc, CHUNK)?;
        Ok(Chunk { bytes, newlines: 0 })
    }

    /// A chunk of these bytes.
    pub(crate) fn of(alloc: Global, bytes: &[u8]) -> Result<Chunk, AllocError>
        requires { length bytes.now ≤ most }
        ensures { IfOk result (λ chunk. chunk ≡ bytes.now) }
    {
        let newlines = newlines_in(bytes);
        let mut held = Vec::with_capacity(alloc, CHUNK)?;
        held.extend_from_slice(bytes)?;
        Ok(Chunk {
            bytes: held,
            newlines,
        })
    }

    /// Puts the bytes of a text from one offset up to another in the place of those that are
    /// there. It takes no memory.
    pub(crate) fn fill<S: Source>(&mut self, source: &S, from: usize, to: usize)
        requires order { from ≤ to }
        requires within { to ≤ length (S.bytes source.now) }
        requires few { to - from ≤ most }
        ensures { self.new ≡ slice_range (S.bytes source.now) from to }
    {
        self.bytes.clear();
        push_part(source, from, to, &mut self.bytes);
        self.newlines = newlines_in(&self.bytes);
    }

    /// The bytes.
    #[inline]
    pub(crate) fn bytes(&self) -> &[u8]
        ensures bytes { result.now ≡ self.now }
        ensures few { length self.now ≤ most }
    {
        &self.bytes
    }

    /// The bytes from a place on.
    #[inline]
    pub(crate) fn bytes_from(&self, at: usize) -> &[u8]
        requires { at ≤ length self.now }
        ensures bytes { result.now ≡ drop at self.now }
        ensures few { length result.now ≤ most }
    {
        &self.bytes[at..]
    }

    /// The bytes up to a place.
    pub(crate) fn bytes_to(&self, at: usize) -> &[u8]
        requires { at ≤ length self.now }
        ensures { result.now ≡ take at self.now }
    {
        &self.bytes[..at]
    }

    /// How many bytes there are.
    pub(crate) fn len(&self) -> usize
        ensures len { result ≡ length self.now }
        ensures few { length self.now ≤ most }
    {
        self.bytes.len()
    }

    /// How many newlines there are among them.
    pub(crate) fn newlines(&self) -> usize
        ensures { result ≡ count_by is_newline self.now }
    {
        self.newlines
    }
}
