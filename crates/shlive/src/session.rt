//! The open script.
ghost use Rattle.std.specs.Prelude.{◌≡◌, ◌≤◌, [], IfErr, IfOk, IfSome, IsOk, OnOk, length, option_map, Some, false, true, ◌<◌};
ghost use Rattle.shread.specs.Answers.{edition_of, meter_of};
ghost use Rattle.shsource.specs.Meter.{raised};
ghost use Rattle.shgrammar.specs.Scripts.{FirstFault};
ghost use Rattle.shgrammar.specs.declared.fault.Fault.{Fault};
ghost use Rattle.shtext.specs.Buffer.{buffer_bytes};
ghost use Rattle.shtext.specs.Edit.{IsTally, limit, one_splice, splices_of};
ghost use Rattle.shlive.specs.Answers.{HasNodesAt, HasOutline, HasStatus, HasText, IsRefused};
ghost use Rattle.shlive.specs.Edits.{IsMade, IsNotMade};

use crate::answers::{nodes_of_lines, outline_of_lines, text_of_lines};
use crate::error::LiveError;
use crate::top_lines::{TopLine, TopLines};
use shprint::Layout;
use shread::{Fault, Reader};
use shtext::{Buffer, Source, Splice, Tally};
use shtree::NodeLine;
use shwindow::HeldLines;
use std::alloc::{AllocError, Global};
use std::marker::Model;

/// A script that is edited, with its lines as they were read, all by the edition of its reader. After each
/// edit every answer is that of the edited bytes read from scratch.
#[derive(Drop)]
pub struct Session {
    alloc: Global,
    reader: TopLines,
    layout: Layout,
    text: Buffer,
    lines: HeldLines<TopLine>,
}

impl Model for Session {
    ghost use Rattle.shlive.specs.Held.{Held};

    ghost Value = { Held };

    ghost use Rattle.shlive.specs.Kept.{IsKept, held};

    ghost view = { held };

    ghost invariant = { IsKept };
}

impl Session {
    /// Opens the script of these bytes, which the reader reads by its edition; the layout is that of its
    /// printed texts. A script of more bytes than the limit is refused. After a refusal the reader is gone.
    /// No bytes take no memory.
    pub fn open(
        alloc: Global,
        reader: Reader,
        layout: Layout,
        bytes: &[u8],
    ) -> Result<Session, LiveError>
        ensures bytes { IfOk result (λ session. session.bytes ≡ bytes.now) }
        ensures allowed { OnOk result (length bytes.now ≤ limit) }
        ensures edition { IfOk result (λ session. session.how.edition ≡ edition_of reader) }
        ensures layout { IfOk result (λ session. session.how.layout ≡ layout) }
        ensures meter { IfOk result
            (λ session. session.meter ≡ raised (meter_of reader) (length bytes.now)) }
        ensures err { IfErr result (IsRefused [] (one_splice 0 0 bytes.now)) }
        ensures empty { length bytes.now ≡ 0 → IsOk result }
    {
        let mut reader = TopLines { reader };
        let text = Buffer::from_slice(alloc, bytes)?;
        let lines = HeldLines::read(alloc, &mut reader, &text)?;
        Ok(Session {
            alloc,
            reader,
            layout,
            text,
            lines,
        })
    }

    /// Puts bytes in the place of those from `a` up to `b`, as [`edit_all`](Session::edit_all) does with this
    /// splice alone.
    pub fn edit(&mut self, a: usize, b: usize, bytes: &[u8]) -> Result<(), LiveError>
        ensures made { OnOk result (IsMade self.old (one_splice a b bytes.now) self.new) }
        ensures refused { IfErr result
            (λ e. IsNotMade self.old (one_splice a b bytes.now) e self.new) }
    {
        self.edit_all(&[Splice { a, b, bytes }])
    }

    /// Makes these splices, all or none, and reads the window of this edit; there is at least one. Their
    /// offsets are those of the script as it is, and they rise: each begins at or after the end of the one
    /// before. An edit that is refused changes no answer; for want of memory it has read no more than the
    /// window.
    pub fn edit_all(&mut self, splices: &[Splice<'_>]) -> Result<(), LiveError>
        requires { 0 < length splices.now }
        ensures made { OnOk result (IsMade self.old (splices_of splices.now) self.new) }
        ensures refused { IfErr result (λ e.
            IsNotMade self.old (splices_of splices.now) e self.new) }
    {
        let change = self.text.prepare_all(splices)?;
        let (start, end, old_end) = change.places();
        let edited = self.text.preview(&change);
        self.lines
            .edit(&mut self.reader, &edited, start, end, old_end)?;
        self.text.commit(change);
        Ok(())
    }

    /// A tally of the script, to which no splice was added. It takes no memory.
    pub(crate) fn tally(&self) -> Tally
        ensures { IsTally result (length self.now.bytes) [] }
    {
        self.text.tally()
    }

    /// Whether an offset is at or past the end, where no node stands. It takes no memory.
    pub(crate) fn is_past(&self, at: usize) -> bool
        ensures past { result ≡ true → HasNodesAt self.now.how.edition self.now.bytes at [] }
        ensures before { result ≡ false → at < length self.now.bytes }
    {
        self.text.len() <= at
    }

    /// The bytes.
    pub(crate) fn bytes(&self) -> &Buffer
        ensures { buffer_bytes result.now ≡ self.now.bytes }
    {
        &self.text
    }

    /// How many bytes the script has.
    pub fn script_len(&self) -> usize
        ensures length { result ≡ length self.now.bytes }
        ensures limit { result ≤ limit }
    {
        self.text.len()
    }

    /// 0 for a script without a fault, 1 for one with a fault.
    pub fn status(&self) -> u8
        ensures { HasStatus self.now.how.edition self.now.bytes result }
    {
        match self.fault() {
            None => 0,
            Some(_) => 1,
        }
    }

    /// The first fault. Its offset counts from the script's first byte.
    pub fn fault(&self) -> Option<Fault>
        ensures first { FirstFault self.now.how.edition self.now.bytes result }
        ensures within { IfSome result (λ fault. fault.at ≤ length self.now.bytes) }
    {
        let last = self.lines.last();
        let begin = self.text.len() - last.len;
        match last.kind.fault() {
            None => None,
            Some(fault) => Some(Fault {
                kind: fault.kind,
                at: begin + fault.at,
            }),
        }
    }

    /// The nodes that an outline shows: all but words, assignments, redirections and comments. Of
    /// a faulty script, those of the lines before its fault.
    pub fn outline(&self) -> Result<Vec<NodeLine>, AllocError>
        ensures { IfOk result (λ lines. HasOutline self.now.how.edition self.now.bytes
            lines.items) }
    {
        outline_of_lines(self.alloc, &self.lines)
    }

    /// The nodes that hold the byte at an offset, the outer before the inner. At or
    /// past the end there are none, which takes no memory.
    pub fn nodes_at(&self, at: usize) -> Result<Vec<NodeLine>, AllocError>
        ensures nodes { IfOk result
            (λ lines. HasNodesAt self.now.how.edition self.now.bytes at lines.items) }
        ensures past { length self.now.bytes ≤ at → IsOk result }
    {
        if self.text.len() <= at {
            return Ok(Vec::new(self.alloc));
        }
        nodes_of_lines(self.alloc, &self.lines, at)
    }

    /// The printed text, and none for a faulty script, which takes no memory.
    pub fn print(&self) -> Result<Option<Vec<u8>>, AllocError>
        ensures text { IfOk result
            (λ text. HasText self.now.how self.now.bytes (option_map (λ t. t.items) text)) }
        ensures faulty { (fault : Fault) →
            FirstFault self.now.how.edition self.now.bytes (Some fault) → IsOk result }
    {
        if self.fault().is_some() {
            return Ok(None);
        }
        let text = text_of_lines(self.alloc, &self.layout, &self.text, &self.lines)?;
        Ok(Some(text))
    }

    /// How many bytes were read so far, from the script's opening on and before it by
    /// its reader; it stays at its greatest number.
    pub fn meter(&self) -> u64
        ensures { result ≡ self.now.meter }
    {
        self.reader.reader.meter()
    }
}
