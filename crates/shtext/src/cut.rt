//! Bytes, cut into chunks.
ghost use Rattle.std.specs.Prelude.{◌≡◌, ◌+◌, ◌-◌, ◌<◌, ◌≤◌, IfOk, length, min};
ghost use Rattle.shtext.specs.Chunks.{AreFull, EachHas, fewest, joined, most, needed};

use crate::chunk::{CHUNK, Chunk, FEWEST};
use std::alloc::{AllocError, Global};

/// How many chunks so many bytes need.
pub(crate) fn chunks_for(len: usize) -> usize
    ensures { result ≡ needed len }
{
    len.div_ceil(CHUNK)
}

/// How many of so many bytes are in the first chunk: as many as there are, or a half of
/// them, or `CHUNK`. So as few chunks are needed as can be, and none of them is small.
pub(crate) fn front_len(len: usize) -> usize
    ensures some { min fewest len ≤ result }
    ensures few { result ≤ most }
    ensures within { result ≤ len }
    ensures rest { result < len → fewest ≤ len - result }
    ensures count { 0 < len → needed (len - result) + 1 ≡ needed len }
{
    if len <= CHUNK {
        len
    } else if len < CHUNK + CHUNK {
        len / 2
    } else {
        CHUNK
    }
}

/// The chunks of some bytes: all but the last have `CHUNK`.
pub(crate) fn cut(alloc: Global, bytes: &[u8]) -> Result<Vec<Chunk>, AllocError>
    ensures bytes { IfOk result (λ chunks. joined chunks.items ≡ bytes.now) }
    ensures each { IfOk result (λ chunks. EachHas 1 chunks.items) }
    ensures full { IfOk result (λ chunks. AreFull chunks.items) }
{
    let mut chunks = Vec::with_capacity(alloc, chunks_for(bytes.len()))?;
    let mut rest = bytes;
    'chunks: while !rest.is_empty() {
        let (front, after) = rest.split_at(rest.len().min(CHUNK));
        let chunk = Chunk::of(alloc, front)?;
        chunks.push(chunk)?;
        rest = after;
    }
    Ok(chunks)
}
