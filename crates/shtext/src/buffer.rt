//! A text that is edited.
ghost use Rattle.std.specs.Prelude.{◌≡◌, ◌+◌, ◌*◌, ◌<◌, ◌≤◌, [], IfErr, IfOk, IsOk, OnOk, length};
ghost use Rattle.shtext.specs.Chunks.{AreFull, EachHas, HasSums, begin_of, ends_of, fewest, joined, newlines_of, most};
ghost use Rattle.shtext.specs.Edit.{AreAllowed, Refuses, limit, one_splice};
ghost use Rattle.shsource.specs.Text.{IsRun};

use crate::chunk::{CHUNK, Chunk};
use crate::cut::cut;
use crate::edit::SEAM;
use crate::error::TextError;
use crate::sums::{add_up_anew, place_near, sum_before};
use crate::tally::Tally;
use shsource::Source;
use std::alloc::Global;

/// A text that is edited in two steps, so that nothing can go wrong once its bytes change: a change is
/// prepared, which takes what memory it needs, and committed. Between the two its edited text can be read.
///
/// Its bytes lie in a row of chunks. None is empty, none has more than `CHUNK` bytes, and none but
/// the last has fewer than a quarter of that, so that an edit moves few bytes, however long the text is.
#[derive(Debug, Drop)]
pub struct Buffer {
    pub(crate) alloc: Global,
    pub(crate) chunks: Vec<Chunk>,
    /// Where each chunk ends.
    pub(crate) ends: Vec<usize>,
    /// How many newlines there are up to the end of each.
    pub(crate) newlines: Vec<usize>,
    /// Chunks for those that come.
    pub(crate) spare: Vec<Chunk>,
    /// Room for the bytes around an edit in the chunks that give way. It is empty between calls.
    pub(crate) seam: Vec<u8>,
    ghost each: { EachHas 1 chunks.items },
    ghost full: { AreFull chunks.items },
    ghost small: { length (joined chunks.items) ≤ limit },
    ghost end_count: { length ends.items ≡ length chunks.items },
    ghost newline_count: { length newlines.items ≡ length chunks.items },
    ghost all_ends: { HasSums ends_of chunks.items (length chunks.items) ends.items },
    ghost all_newlines: { HasSums newlines_of chunks.items (length chunks.items) newlines.items },
    ghost no_seam: { length seam.items ≡ 0 },
}

impl Buffer {
    ghost use Rattle.shtext.specs.Buffer.{buffer_bytes};

    /// The empty text.
    pub fn new(alloc: Global) -> Buffer
        ensures { buffer_bytes result ≡ [] }
    {
        Buffer {
            alloc,
            chunks: Vec::new(alloc),
            ends: Vec::new(alloc),
            newlines: Vec::new(alloc),
            spare: Vec::new(alloc),
            seam: Vec::new(alloc),
        }
    }

    /// The text of these bytes. It is refused where the edit would be that puts them
    /// into the empty text. No bytes take no memory.
    pub fn from_slice(alloc: Global, bytes: &[u8]) -> Result<Buffer, TextError>
        ensures bytes { IfOk result (λ buffer. buffer_bytes buffer ≡ bytes.now) }
        ensures allowed { IfOk result (λ buffer. length bytes.now ≤ limit) }
        ensures err { IfErr result (Refuses [] (one_splice 0 0 bytes.now)) }
        ensures empty { length bytes.now ≡ 0 → IsOk result }
    {
        if bytes.is_empty() {
            return Ok(Buffer::new(alloc));
        }
        may_be_text(bytes)?;
        let chunks = cut(alloc, bytes)?;
        let mut ends = Vec::with_capacity(alloc, chunks.len())?;
        let mut newlines = Vec::with_capacity(alloc, chunks.len())?;
        let seam = Vec::with_capacity(alloc, SEAM)?;
        add_up_anew(&chunks, 0, 0, chunks.len(), &mut ends, &mut newlines);
        Ok(Buffer {
            alloc,
            chunks,
            ends,
            newlines,
            spare: Vec::new(alloc),
            seam,
        })
    }

    /// How many chunks the bytes lie in: at most one more than a 1,024th of them.
    pub fn chunk_count(&self) -> usize
        ensures count { result ≡ length self.now.chunks.items }
        ensures few { result * fewest ≤ length (buffer_bytes self.now) + fewest }
    {
        self.chunks.len()
    }

    /// Where a chunk begins; the length, after the last.
    #[inline]
    pub(crate) fn begin(&self, chunk: usize) -> usize
        requires { chunk ≤ length self.now.chunks.items }
        ensures { result ≡ begin_of self.now.chunks.items chunk }
    {
        sum_before(&self.ends, chunk)
    }

    /// The chunk of an offset. Where all before it have `CHUNK` bytes, that is the first guess.
    #[inline]
    pub(crate) fn find(&self, at: usize) -> usize
        requires { at < length (buffer_bytes self.now) }
        ensures within { result < length self.now.chunks.items }
        ensures low { begin_of self.now.chunks.items result ≤ at }
        ensures high { at < begin_of self.now.chunks.items (result + 1) }
    {
        place_near(&self.ends, at / CHUNK, at)
    }

    /// The bytes of a chunk from an offset on.
    #[inline]
    fn stretch(&self, at: usize) -> &[u8]
        requires { at < length (buffer_bytes self.now) }
        ensures run { IsRun (buffer_bytes self.now) at result.now }
        ensures few { length result.now ≤ most }
    {
        let index = self.find(at);
        let begin = self.begin(index);
        let chunk = &self.chunks[index];
        chunk.bytes_from(at - begin)
    }
}

impl Source for Buffer {
    ghost use Rattle.shtext.specs.Buffer.{buffer_bytes};

    ghost bytes = { buffer_bytes };

    #[inline]
    fn len(&self) -> usize {
        self.begin(self.chunks.len())
    }

    #[inline]
    fn byte(&self, at: usize) -> Option<u8> {
        self.run(at).first().copied()
    }

    #[inline]
    fn run(&self, at: usize) -> &[u8]
        ensures run { IsRun (buffer_bytes self.now) at result.now }
        ensures few { length result.now ≤ most }
    {
        if at < self.len() {
            self.stretch(at)
        } else {
            &[]
        }
    }
}

/// Whether a text may be of these bytes.
fn may_be_text(bytes: &[u8]) -> Result<(), TextError>
    ensures ok { OnOk result (AreAllowed [] (one_splice 0 0 bytes.now)) }
    ensures err { IfErr result (Refuses [] (one_splice 0 0 bytes.now)) }
{
    let mut tally = Tally::new(0);
    tally.add(0, 0, bytes.len());
    tally.answer()
}
