//! The splices of an edit, as they come.
ghost use Rattle.std.specs.Prelude.{◌≡◌, ◌<◌, ◌∷◌, ◌++◌, [], ℕ, IfErr, IfOk, List, List as Row, OnOk, length};
ghost use Rattle.shtext.specs.Edit.{ASplice, IsTally};
ghost use Rattle.shlive.specs.Ahead.{IsReady, StopsAfter, ahead_of};
ghost use Rattle.shlive.specs.Lines.{KeepsText};
ghost use Rattle.shlive.specs.Parts.{AreSplices, Comes, Hold, IsInSplice, TakesSplice};
ghost use Rattle.shlive.specs.Payload.{AreKept};
ghost use Rattle.shlive.specs.RequestKinds.{HasPart};
ghost use Rattle.shlive.specs.Requests.{more_parts, next_by_form, part_of_line, splice_by};

use crate::incoming::{Incoming, InputEnd};
use crate::lines::{RequestLine, take_line};
use crate::payload::take_payload;
use crate::request_kind::{EditForm, Part, part_of};
use shtext::{Input, LIMIT, Tally, TextError};
use std::alloc::Global;
use std::io::Read;
use std::mem;

/// Why an edit is none that can be tried.
#[derive(Clone, Copy, Debug, PartialEq, Eq)]
pub(crate) enum Flaw {
    /// A line is no part.
    NoPart,
    /// The bytes of a splice are not followed by a newline.
    NoPayload,
}

/// A splice whose bytes came.
#[derive(Drop)]
pub(crate) struct KeptSplice {
    pub(crate) a: usize,
    pub(crate) b: usize,
    pub(crate) bytes: Vec<u8>,
}

/// The splices that came so far.
#[derive(Drop)]
pub(crate) struct Parts {
    /// What lengths tell of them.
    pub(crate) tally: Tally,
    /// How many bytes they bring.
    count: usize,
    /// They are not kept where they are refused, or where there was no memory.
    pub(crate) kept: Option<Vec<KeptSplice>>,
}

impl Parts {
    /// None came. This tally is that of none.
    pub(crate) fn new(alloc: Global, tally: Tally) -> Parts
        ensures { (len : ℕ) → IsTally tally len [] → Hold result len [] }
    {
        Parts {
            tally,
            count: 0,
            kept: Some(Vec::new(alloc)),
        }
    }

    /// Counts a splice more, and answers whether its bytes are wanted: not where the others are not kept, and
    /// not where they cannot be made, whatever follows.
    fn expect(&mut self, part: Part, is_last: bool) -> bool
        ensures told { (len : ℕ) (ss : Row ASplice) (bytes : List ℕ) → length bytes ≡ part.count →
            IsTally self.old.tally len ss →
            IsTally self.new.tally len (ss ++ splice_by part bytes ∷ []) }
        ensures kept { self.new.kept ≡ self.old.kept }
    {
        self.tally.add(part.a, part.b, part.count);
        self.count = self.count.saturating_add(part.count);
        if self.kept.is_none() {
            return false;
        }
        match self.tally.answer() {
            Ok(()) => true,
            Err(TextError::TooLarge) => !is_last && self.count <= LIMIT,
            Err(_) => false,
        }
    }

    /// Keeps a splice whose bytes came, where they were kept, after the others, where those are.
    fn keep(&mut self, part: Part, payload: Option<Vec<u8>>)
        ensures kept { (ss : Row ASplice) (bytes : List ℕ) →
            AreSplices self.old.kept ss → AreKept payload bytes →
            AreSplices self.new.kept (ss ++ splice_by part bytes ∷ []) }
        ensures tally { self.new.tally ≡ self.old.tally }
    {
        let kept = mem::replace(&mut self.kept, None);
        self.kept = with_one(kept, part, payload);
    }
}

/// Splices and one more after them, where all are kept.
fn with_one(
    kept: Option<Vec<KeptSplice>>,
    part: Part,
    payload: Option<Vec<u8>>,
) -> Option<Vec<KeptSplice>>
    ensures { (ss : Row ASplice) (bytes : List ℕ) → AreSplices kept ss → AreKept payload bytes →
        AreSplices result (ss ++ splice_by part bytes ∷ []) }
{
    let mut kept = kept?;
    let bytes = payload?;
    let splice = KeptSplice {
        a: part.a,
        b: part.b,
        bytes,
    };
    match kept.push(splice) {
        Ok(()) => Some(kept),
        Err(_) => None,
    }
}

/// Takes the bytes of a splice and the newline after them, and keeps the splice after the others.
fn take_bytes<R: Read>(
    alloc: Global,
    incoming: &mut Incoming,
    input: &mut Input<R>,
    part: Part,
    is_last: bool,
    parts: &mut Parts,
) -> Result<Result<(), Flaw>, InputEnd>
    requires { IsReady input.old incoming.old }
    ensures ready { OnOk result (IsReady input.new incoming.new) }
    ensures came { IfOk result (TakesSplice part parts.old parts.new
        (ahead_of R.remaining input.old incoming.old)
        (ahead_of R.remaining input.new incoming.new)) }
    ensures cut { IfErr result (StopsAfter (IsInSplice part)
        (ahead_of R.remaining input.old incoming.old)
        (ahead_of R.remaining input.new incoming.new)) }
{
    let wanted = parts.expect(part, is_last);
    let payload = take_payload(alloc, incoming, input, part.count, wanted)?;
    parts.keep(part, payload);
    let line = take_line(incoming, input)?;
    if line.is_empty() {
        Ok(Ok(()))
    } else {
        Ok(Err(Flaw::NoPayload))
    }
}

/// Takes so many parts of an edit, up to the first flaw.
fn take_parts<R: Read>(
    alloc: Global,
    incoming: &mut Incoming,
    input: &mut Input<R>,
    count: usize,
    parts: &mut Parts,
) -> Result<Result<(), Flaw>, InputEnd>
    requires some { 0 < count }
    requires ready { IsReady input.old incoming.old }
    ensures ready { OnOk result (IsReady input.new incoming.new) }
    ensures comes { (len : ℕ) → Hold parts.old len [] →
        Comes (more_parts count []) (ahead_of R.remaining input.old incoming.old)
        (ahead_of R.remaining input.new incoming.new) parts.new len result }
{
    let mut left = count;
    'parts: while left > 0 {
        let line = take_line(incoming, input)?;
        let Some(part) = part_of_line(&line) else {
            return Ok(Err(Flaw::NoPart));
        };
        left -= 1;
        let came = take_bytes(alloc, incoming, input, part, left == 0, parts)?;
        if came.is_err() {
            return Ok(came);
        }
    }
    Ok(Ok(()))
}

/// The part that a line spells. One that is too long is none.
fn part_of_line(line: &RequestLine) -> Option<Part>
    ensures { (text : List ℕ) → KeepsText line.now text → result ≡ part_of_line text }
{
    match line.text() {
        Some(text) => part_of(text),
        None => None,
    }
}

/// Takes the splices of an edit, up to the first flaw.
pub(crate) fn take_splices<R: Read>(
    alloc: Global,
    incoming: &mut Incoming,
    input: &mut Input<R>,
    form: EditForm,
    parts: &mut Parts,
) -> Result<Result<(), Flaw>, InputEnd>
    requires some { HasPart form }
    requires ready { IsReady input.old incoming.old }
    ensures ready { OnOk result (IsReady input.new incoming.new) }
    ensures comes { (len : ℕ) → Hold parts.old len [] →
        Comes (next_by_form form) (ahead_of R.remaining input.old incoming.old)
        (ahead_of R.remaining input.new incoming.new) parts.new len result }
{
    match form {
        EditForm::Alone(part) => take_bytes(alloc, incoming, input, part, true, parts),
        EditForm::Batch(count) => take_parts(alloc, incoming, input, count, parts),
    }
}
