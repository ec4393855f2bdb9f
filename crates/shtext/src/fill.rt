//! Chunks that are filled with the bytes of a text.
ghost use Rattle.std.specs.Prelude.{◌≡◌, ◌+◌, ◌-◌, ◌≤◌, length, min, vec_capacity, vec_len};
ghost use Rattle.shtext.specs.Chunks.{EachHas, Refilled, fewest, joined, needed};

use crate::chunk::Chunk;
use crate::cut::{chunks_for, front_len};
use crate::make_place::make_place;
use shsource::Source;

/// Puts chunks with the bytes of a text in the place of those from `from` up to `to`. It takes no
/// memory: those that give way are filled anew, and what is wanting comes from the spare ones.
pub(crate) fn fill_anew<S: Source>(
    chunks: &mut Vec<Chunk>,
    spare: &mut Vec<Chunk>,
    from: usize,
    to: usize,
    source: &S,
)
    requires order { from ≤ to }
    requires within { to ≤ vec_len chunks.old }
    requires spare { needed (length (S.bytes source.now)) ≤ (to - from) + vec_len spare.old }
    requires room { let more = needed (length (S.bytes source.now)) - (to - from) in
        vec_len chunks.old + more ≤ vec_capacity chunks.old }
    ensures { Refilled chunks.old.items chunks.new.items from to (S.bytes source.now) }
{
    let count = chunks_for(source.len());
    make_place(chunks, spare, from, to, count);
    fill_between(chunks, from, from + count, source);
}

/// Fills the chunks from `from` up to `to` with the bytes of a text, which needs as many.
fn fill_between<S: Source>(chunks: &mut [Chunk], from: usize, to: usize, source: &S)
    requires within { to ≤ length chunks.old }
    requires count { from + needed (length (S.bytes source.now)) ≡ to }
    ensures { Refilled chunks.old chunks.new from to (S.bytes source.now) }
{
    fill(&mut chunks[from..to], source);
}

/// Fills chunks with the bytes of a text, which needs as many. None is small unless the
/// text is.
fn fill<S: Source>(chunks: &mut [Chunk], source: &S)
    requires { length chunks.old ≡ needed (length (S.bytes source.now)) }
    ensures bytes { joined chunks.new ≡ S.bytes source.now }
    ensures each { EachHas (min fewest (length (S.bytes source.now))) chunks.new }
{
    let len = source.len();
    let (mut at, mut index) = (0, 0);
    'chunks: while index < chunks.len() {
        let next = at + front_len(len - at);
        chunks[index].fill(source, at, next);
        at = next;
        index += 1;
    }
}
