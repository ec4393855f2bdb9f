//! Edits of a text in chunks.
ghost use Rattle.std.specs.Prelude.{◌≡◌, ◌⊎◌, ◌+◌, ◌-◌, ◌<◌, ◌≤◌, ◌++◌, ◌↔◌, [], ℕ, IfErr, IfOk, IsTrue, OnOk, drop, length, slice_range, take, vec_capacity, vec_len};
ghost use Rattle.shtext.specs.Buffer.{Fits, HasChunks, HasRoom, Makes, buffer_bytes, changed, edited_bytes, with_splices};
ghost use Rattle.shtext.specs.Chunks.{HoldsPart, LeavesFull, around, around_count, begin_of, fewest, most, needed, put_between, seam_most};
ghost use Rattle.shtext.specs.Edit.{AreInRange, Refuses, RiseFrom, IsTally, first_begin, limit, one_splice, splices_of};
ghost use Rattle.shtext.specs.declared.change.Change.{Change};

use crate::buffer::Buffer;
use crate::change::Change;
use crate::chunk::{CHUNK, Chunk, FEWEST};
use crate::copy::{push_part, stand_at};
use crate::cut::chunks_for;
use crate::edited::Edited;
use crate::error::TextError;
use crate::fill::fill_anew;
use crate::filling::Filling;
use crate::splice::Splice;
use crate::sums::add_up_anew;
use crate::tally::{LIMIT, Tally};
use shsource::Source;
use std::alloc::{AllocError, Global};
use std::mem;

/// How many spare chunks stay after an edit: what a key that is typed wants.
const SPARE_KEPT: usize = 1;

/// The most bytes around an edit in the chunks that give way to it.
pub(crate) const SEAM: usize = CHUNK + CHUNK;

impl Buffer {
    /// A tally of this text, to which no splice was added. It takes no memory.
    pub fn tally(&self) -> Tally
        ensures { IsTally result (length (buffer_bytes self.now)) [] }
    {
        Tally::new(self.len())
    }

    /// A change that puts these bytes in the place of those from `a` up to `b`, as
    /// [`prepare_all`](Buffer::prepare_all) does with this splice alone.
    pub fn prepare(&mut self, a: usize, b: usize, bytes: &[u8]) -> Result<Change, TextError>
        ensures bytes { buffer_bytes self.new ≡ buffer_bytes self.old }
        ensures fits { IfOk result (Fits self.new) }
        ensures change { IfOk result (Makes (buffer_bytes self.old) (one_splice a b bytes.now)) }
        ensures err { IfErr result (Refuses (buffer_bytes self.old) (one_splice a b bytes.now)) }
        ensures others { (c : Change) → Fits self.old c → Fits self.new c }
    {
        self.prepare_all(&[Splice { a, b, bytes }])
    }

    /// A change that makes these splices, all or none; there is at least one. Their offsets are those of the
    /// text as it is, and they rise: each begins at or after the end of the one before. It fits, and what
    /// fitted fits still; no byte of the text changes, whatever is answered.
    pub fn prepare_all(&mut self, splices: &[Splice<'_>]) -> Result<Change, TextError>
        requires { 0 < length splices.now }
        ensures bytes { buffer_bytes self.new ≡ buffer_bytes self.old }
        ensures fits { IfOk result (Fits self.new) }
        ensures change { IfOk result (Makes (buffer_bytes self.old) (splices_of splices.now)) }
        ensures err { IfErr result (Refuses (buffer_bytes self.old) (splices_of splices.now)) }
        ensures others { (c : Change) → Fits self.old c → Fits self.new c }
    {
        let tally = self.tally_of(splices);
        tally.answer()?;
        let (start, end) = (first_begin(splices), tally.last_end());
        let old = self.copy_between(start, end)?;
        let mut new = Vec::with_capacity(self.alloc, tally.new_end().saturating_sub(start))?;
        push_with(start, &old, splices, &mut new)?;
        self.make_room(chunks_for(new.len().saturating_sub(end - start)))?;
        Ok(Change {
            start,
            end,
            old,
            new,
        })
    }

    /// What lengths tell of some splices.
    fn tally_of(&self, splices: &[Splice<'_>]) -> Tally
        ensures { IsTally result (length (buffer_bytes self.now)) (splices_of splices.now) }
    {
        let mut tally = self.tally();
        'splices: for splice in splices {
            tally.add(splice.a, splice.b, splice.bytes.len());
        }
        tally
    }

    /// The bytes from `a` up to `b`.
    fn copy_between(&self, a: usize, b: usize) -> Result<Vec<u8>, AllocError>
        requires order { a ≤ b }
        requires within { b ≤ length (buffer_bytes self.now) }
        ensures { IfOk result (λ copy. copy.items ≡ slice_range (buffer_bytes self.now) a b) }
    {
        let mut copy = Vec::with_capacity(self.alloc, b - a)?;
        push_part(self, a, b, &mut copy);
        Ok(copy)
    }

    /// Makes room for so many chunks more, and for what stands around an edit.
    fn make_room(&mut self, more: usize) -> Result<(), AllocError>
        ensures bytes { buffer_bytes self.new ≡ buffer_bytes self.old }
        ensures room { OnOk result (HasRoom self.new more) }
        ensures others { (c : Change) → Fits self.old c → Fits self.new c }
    {
        self.chunks.reserve(more)?;
        self.ends.reserve(more)?;
        self.newlines.reserve(more)?;
        stock(self.alloc, &mut self.spare, more)?;
        self.seam.reserve(SEAM)
    }

    /// Whether there is room for so many chunks more, and for what stands around an edit.
    fn has_room(&self, more: usize) -> bool
        ensures { IsTrue result ↔ HasRoom self.now more }
    {
        let wanted = self.chunks.len().saturating_add(more);
        wanted <= self.chunks.capacity()
            && wanted <= self.ends.capacity()
            && wanted <= self.newlines.capacity()
            && more <= self.spare.len()
            && (self.chunks.is_empty() || SEAM <= self.seam.capacity())
    }

    /// Whether a change fits: its places are there, the bytes between them are those that stood there when it
    /// was prepared, and there is room for the edited text.
    pub fn fits(&self, change: &Change) -> bool
        ensures { IsTrue result ↔ Fits self.now change.now }
    {
        if change.start > change.end || change.end > self.len() {
            return false;
        }
        let gone = change.end - change.start;
        if self.len() - gone + change.new.len() > LIMIT || change.old.len() != gone {
            return false;
        }
        stand_at(self, change.start, &change.old)
            && self.has_room(chunks_for(change.new.len().saturating_sub(gone)))
    }

    /// The text that the change would make. It has to fit.
    pub fn preview<'a>(&'a self, change: &'a Change) -> Edited<'a>
        requires { Fits self.now change.now }
        ensures { edited_bytes result ≡ changed (buffer_bytes self.now) change.now }
    {
        Edited {
            buffer: self,
            new: &change.new,
            start: change.start,
            end: change.end,
        }
    }

    /// Makes the change, which has to fit. It takes no memory: the room was made when
    /// the change was prepared.
    pub fn commit(&mut self, change: Change)
        requires { Fits self.old change }
        ensures { buffer_bytes self.new ≡ changed (buffer_bytes self.old) change }
    {
        if change.start == change.end && change.new.is_empty() {
            return;
        }
        let (from, to) = self.chunks_of(change.start, change.end, change.new.len());
        let head = change.start - self.begin(from);
        let mut seam = mem::replace(&mut self.seam, Vec::new(self.alloc));
        self.copy_around(from, to, change.start, change.end, &mut seam);
        let filling = Filling::new(&seam, head, &change.new);
        self.refill(from, to, &filling);
        self.spare.truncate(SPARE_KEPT);
        seam.clear();
        self.seam = seam;
    }

    /// The chunk of an offset; the last one at the end.
    fn first_of(&self, a: usize) -> usize
        requires { a ≤ length (buffer_bytes self.now) }
        ensures within { result ≤ length self.now.chunks.items }
        ensures low { begin_of self.now.chunks.items result ≤ a }
        ensures near { a ≤ begin_of self.now.chunks.items result + most }
        ensures some { result < length self.now.chunks.items ⊎ (length self.now.chunks.items ≡ 0) }
    {
        if a < self.len() {
            self.find(a)
        } else {
            self.chunks.len().saturating_sub(1)
        }
    }

    /// A chunk before which an offset is, or at which it ends.
    fn end_of(&self, b: usize) -> usize
        requires { b ≤ length (buffer_bytes self.now) }
        ensures within { result ≤ length self.now.chunks.items }
        ensures high { b ≤ begin_of self.now.chunks.items result }
        ensures near { begin_of self.now.chunks.items result ≤ b + most }
        ensures order { (n : ℕ) → n ≤ length self.now.chunks.items →
            begin_of self.now.chunks.items n ≤ b → n ≤ result }
    {
        if b < self.len() {
            self.find(b) + 1
        } else {
            self.chunks.len()
        }
    }

    /// Takes in the chunk after some where what is to stand there, so many bytes without
    /// that chunk, is little.
    fn end_taken(&self, to: usize, len: usize) -> usize
        requires { to ≤ length self.now.chunks.items }
        ensures high { to ≤ result }
        ensures within { result ≤ length self.now.chunks.items }
        ensures near { let row = self.now.chunks.items in
            (result ≡ to) ⊎ ((len < fewest) × (begin_of row result ≤ begin_of row to + most)) }
        ensures full { let row = self.now.chunks.items in
            result < length row → fewest ≤ len + (begin_of row result - begin_of row to) }
    {
        if to < self.chunks.len() && len < FEWEST {
            to + 1
        } else {
            to
        }
    }

    /// The chunks that give way where so many bytes take the place of those from `a` up to `b`.
    fn chunks_of(&self, a: usize, b: usize, count: usize) -> (usize, usize)
        requires order { a ≤ b }
        requires within { b ≤ length (buffer_bytes self.now) }
        ensures holds { HoldsPart self.now.chunks.items result.0 result.1 a b }
        ensures full { LeavesFull self.now.chunks.items result.0 result.1
            (count + around_count self.now.chunks.items result.0 result.1 a b) }
        ensures seam { around_count self.now.chunks.items result.0 result.1 a b ≤ seam_most }
        ensures none { length self.now.chunks.items ≡ 0 →
            around_count self.now.chunks.items result.0 result.1 a b ≡ 0 }
    {
        let (from, to) = (self.first_of(a), self.end_of(b));
        let before = a - self.begin(from);
        let after = self.begin(to) - b;
        let len = before.saturating_add(count.saturating_add(after));
        (from, self.end_taken(to, len))
    }

    /// Copies what stands around an edit in the chunks that give way to it.
    fn copy_around(&self, from: usize, to: usize, a: usize, b: usize, seam: &mut Vec<u8>)
        requires order { a ≤ b }
        requires holds { HoldsPart self.now.chunks.items from to a b }
        requires room { let count = around_count self.now.chunks.items from to a b in
            vec_len seam.old + count ≤ vec_capacity seam.old }
        ensures { seam.new.items ≡ seam.old.items ++ around self.now.chunks.items from to a b }
    {
        push_part(self, self.begin(from), a, seam);
        push_part(self, b, self.begin(to), seam);
    }

    /// Puts the bytes of another text in the place of those of some chunks.
    fn refill<S: Source>(&mut self, from: usize, to: usize, source: &S)
        requires order { from ≤ to }
        requires within { to ≤ length self.old.chunks.items }
        requires full { LeavesFull self.old.chunks.items from to (length (S.bytes source.now)) }
        requires small { let bytes = S.bytes source.now in
            length (put_between self.old.chunks.items from to bytes) ≤ limit }
        requires room { HasChunks self.old (needed (length (S.bytes source.now)) - (to - from)) }
        ensures { let bytes = S.bytes source.now in
            buffer_bytes self.new ≡ put_between self.old.chunks.items from to bytes }
    {
        fill_anew(&mut self.chunks, &mut self.spare, from, to, source);
        let count = chunks_for(source.len());
        add_up_anew(
            &self.chunks,
            from,
            to,
            count,
            &mut self.ends,
            &mut self.newlines,
        );
    }
}

/// Adds what splices make of the bytes from `from` on: those before each of them, and after the last, stay.
fn push_with(
    from: usize,
    bytes: &[u8],
    splices: &[Splice<'_>],
    into: &mut Vec<u8>,
) -> Result<(), AllocError>
    requires in_range { AreInRange (from + length bytes.now) (splices_of splices.now) }
    requires rising { RiseFrom from (splices_of splices.now) }
    ensures { OnOk result (into.new.items ≡
        into.old.items ++ with_splices from bytes.now (splices_of splices.now)) }
{
    let (mut at, mut rest) = (from, bytes);
    'splices: for splice in splices {
        rest = push_one(at, rest, splice, into)?;
        at = splice.b;
    }
    into.extend_from_slice(rest)
}

/// Adds the bytes before a splice, of those from `from` on, and its own. The rest is answered: what
/// stands after it.
fn push_one<'a>(
    from: usize,
    bytes: &'a [u8],
    splice: &Splice<'_>,
    into: &mut Vec<u8>,
) -> Result<&'a [u8], AllocError>
    requires low { from ≤ splice.now.a }
    requires order { splice.now.a ≤ splice.now.b }
    requires high { splice.now.b ≤ from + length bytes.now }
    ensures into { OnOk result (into.new.items ≡
        into.old.items ++ (take (splice.now.a - from) bytes.now ++ splice.now.bytes.now)) }
    ensures rest { IfOk result (λ rest. rest.now ≡ drop (splice.now.b - from) bytes.now) }
{
    let (before, after) = (splice.a - from, splice.b - from);
    into.extend_from_slice(&bytes[..before])?;
    into.extend_from_slice(splice.bytes)?;
    Ok(&bytes[after..])
}

/// Where the first of some splices begins.
fn first_begin(splices: &[Splice<'_>]) -> usize
    requires { 0 < length splices.now }
    ensures { result ≡ first_begin (splices_of splices.now) }
{
    splices[0].a
}

/// Has as many spare chunks as wanted, or more.
fn stock(alloc: Global, spare: &mut Vec<Chunk>, wanted: usize) -> Result<(), AllocError>
    ensures enough { OnOk result (wanted ≤ vec_len spare.new) }
    ensures more { vec_len spare.old ≤ vec_len spare.new }
{
    spare.reserve(wanted.saturating_sub(spare.len()))?;
    'chunks: while spare.len() < wanted {
        let chunk = Chunk::new(alloc)?;
        spare.push(chunk)?;
    }
    Ok(())
}
