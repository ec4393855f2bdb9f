//! The replies to requests whose payload, where they have one, was read.
ghost use Rattle.std.specs.Prelude.{◌≡◌, ◌<◌, ◌≤◌, IfErr, IfOk, List as Row, OnOk, Some, length};
ghost use Rattle.shtext.specs.Edit.{ASplice, splices_of};
ghost use Rattle.shlive.specs.Edits.{IsMade, IsNotMade};
ghost use Rattle.shlive.specs.Outputs.{Remembers, WritesText};
ghost use Rattle.shlive.specs.Parts.{Hold, HoldSome, request_by, splices_kept};
ghost use Rattle.shlive.specs.Replies.{TellsNodesAt, TellsOutline, fault_text, flaw_text, number_of_kind, ok_text, printed_text, refusal_text};
ghost use Rattle.shlive.specs.Requests.{at as asks_at, edit, fault, outline, print};
ghost use Rattle.shlive.specs.Turns.{RepliesTo};

use crate::error::LiveError;
use crate::parts::{Flaw, KeptSplice, Parts};
use crate::reply::write_flushed;
use crate::session::Session;
use crate::texts::nodes_text;
use shread::{Fault, FaultKind};
use shtext::{Failed, Output, Splice};
use std::alloc::{AllocError, Global};
use std::io::Write;

const NO_MEMORY: &[u8] = b"no memory\n";

/// The number by which a reply tells a kind of fault.
fn number_of_kind(kind: FaultKind) -> u8
    ensures { result ≡ number_of_kind kind }
{
    kind as u8
}

/// What a reply says of a refusal.
fn refusal_text(error: LiveError) -> &'static [u8]
    ensures { result.now ≡ refusal_text error }
{
    match error {
        LiveError::Range => b"no range\n",
        LiveError::TooLarge => b"no room\n",
        LiveError::Memory => NO_MEMORY,
        LiveError::Order => b"no order\n",
    }
}

/// What a reply says of a flaw.
fn flaw_text(flaw: Flaw) -> &'static [u8]
    ensures { result.now ≡ flaw_text flaw }
{
    match flaw {
        Flaw::NoPart => b"no part\n",
        Flaw::NoPayload => b"no payload\n",
    }
}

/// The splices that were kept.
fn splices_kept(alloc: Global, kept: &[KeptSplice]) -> Result<Vec<Splice<'_>>, AllocError>
    ensures { IfOk result (λ splices. splices_of splices.items ≡ splices_kept kept.now) }
{
    let mut splices = Vec::with_capacity(alloc, kept.len())?;
    'kept: for splice in kept {
        splices.push(Splice {
            a: splice.a,
            b: splice.b,
            bytes: &splice.bytes,
        })?;
    }
    Ok(splices)
}

/// Makes an edit whose splices came, where they were kept.
fn edit_kept(alloc: Global, session: &mut Session, parts: &Parts) -> Result<(), LiveError>
    ensures made { OnOk result ((ss : Row ASplice) →
        HoldSome parts.now (length session.old.bytes) ss → IsMade session.old ss session.new) }
    ensures refused { IfErr result (λ e. (ss : Row ASplice) →
        HoldSome parts.now (length session.old.bytes) ss →
        IsNotMade session.old ss e session.new) }
{
    parts.tally.answer()?;
    let Some(kept) = &parts.kept else {
        return Err(LiveError::Memory);
    };
    let splices = splices_kept(alloc, kept)?;
    // It never is: an edit has a splice, and `edit_all` asks for one.
    if splices.is_empty() {
        return Ok(());
    }
    session.edit_all(&splices)
}

/// Says that an edit was made: how many bytes the script has now, and its status.
fn tell_ok<W: Write>(output: &mut Output<W>, len: usize, status: u8) -> Result<(), Failed>
    ensures bytes { WritesText W.contents output.old output.new result
        (ok_text len status) }
    ensures failed { Remembers output.old output.new result }
{
    let (mut len_text, mut status_text) = (itoa::Buffer::new(), itoa::Buffer::new());
    write_flushed(
        output,
        &[
            b"ok ",
            len_text.format(len).as_bytes(),
            b" ",
            status_text.format(status).as_bytes(),
            b"\n",
        ],
    )
}

/// Replies to an edit whose splices came. They need not have been kept.
fn reply_to_splices<W: Write>(
    alloc: Global,
    session: &mut Session,
    output: &mut Output<W>,
    parts: &Parts,
) -> Result<(), Failed>
    ensures tells { (ss : Row ASplice) → HoldSome parts.now (length session.old.bytes) ss →
        RepliesTo session.old (edit ss) session.new
        (WritesText W.contents output.old output.new result) }
    ensures failed { Remembers output.old output.new result }
{
    if let Err(error) = edit_kept(alloc, session, parts) {
        return write_flushed(output, &[refusal_text(error)]);
    }
    tell_ok(output, session.script_len(), session.status())
}

/// Replies to an edit that came, whole or up to a flaw.
pub(crate) fn reply_to_edit<W: Write>(
    alloc: Global,
    session: &mut Session,
    output: &mut Output<W>,
    parts: &Parts,
    came: Result<(), Flaw>,
) -> Result<(), Failed>
    ensures tells { (ss : Row ASplice) → OnOk came (0 < length ss) →
        Hold parts.now (length session.old.bytes) ss →
        RepliesTo session.old (request_by came ss) session.new
        (WritesText W.contents output.old output.new result) }
    ensures failed { Remembers output.old output.new result }
{
    match came {
        Ok(()) => reply_to_splices(alloc, session, output, parts),
        Err(flaw) => write_flushed(output, &[flaw_text(flaw)]),
    }
}

/// What is said of an outline.
fn outline_text(alloc: Global, session: &Session) -> Result<Vec<u8>, AllocError>
    ensures { IfOk result
        (λ text. TellsOutline session.now.how.edition session.now.bytes text.items) }
{
    let nodes = session.outline()?;
    nodes_text(alloc, b"outline", session.bytes(), &nodes)
}

/// Replies to `outline`.
pub(crate) fn reply_to_outline<W: Write>(
    alloc: Global,
    session: &Session,
    output: &mut Output<W>,
) -> Result<(), Failed>
    ensures tells { RepliesTo session.now outline session.now
        (WritesText W.contents output.old output.new result) }
    ensures failed { Remembers output.old output.new result }
{
    match outline_text(alloc, session) {
        Ok(text) => write_flushed(output, &[&text]),
        Err(_) => write_flushed(output, &[NO_MEMORY]),
    }
}

/// What is said of the nodes at an offset.
fn at_text(alloc: Global, session: &Session, at: usize) -> Result<Vec<u8>, AllocError>
    ensures { IfOk result
        (λ text. TellsNodesAt session.now.how.edition session.now.bytes at text.items) }
{
    let nodes = session.nodes_at(at)?;
    nodes_text(alloc, b"at", session.bytes(), &nodes)
}

/// Replies to `at`. At or past the end this takes no memory.
pub(crate) fn reply_to_at<W: Write>(
    alloc: Global,
    session: &Session,
    output: &mut Output<W>,
    at: usize,
) -> Result<(), Failed>
    ensures tells { RepliesTo session.now (asks_at at) session.now
        (WritesText W.contents output.old output.new result) }
    ensures failed { Remembers output.old output.new result }
{
    if session.is_past(at) {
        return write_flushed(output, &[b"at 0\n"]);
    }
    match at_text(alloc, session, at) {
        Ok(text) => write_flushed(output, &[&text]),
        Err(_) => write_flushed(output, &[NO_MEMORY]),
    }
}

/// Replies to `fault` where there is one.
fn tell_fault<W: Write>(
    session: &Session,
    output: &mut Output<W>,
    fault: Fault,
) -> Result<(), Failed>
    requires { fault.at ≤ length session.now.bytes }
    ensures bytes { WritesText W.contents output.old output.new result
        (fault_text session.now.bytes (Some fault)) }
    ensures failed { Remembers output.old output.new result }
{
    let (line, col) = session.bytes().line_col(fault.at);
    let (mut at_text, mut line_text) = (itoa::Buffer::new(), itoa::Buffer::new());
    let (mut col_text, mut kind_text) = (itoa::Buffer::new(), itoa::Buffer::new());
    write_flushed(
        output,
        &[
            b"fault ",
            at_text.format(fault.at).as_bytes(),
            b" ",
            line_text.format(line).as_bytes(),
            b" ",
            col_text.format(col).as_bytes(),
            b" ",
            kind_text.format(number_of_kind(fault.kind)).as_bytes(),
            b"\n",
        ],
    )
}

/// Replies to `fault`. It takes no memory.
pub(crate) fn reply_to_fault<W: Write>(
    session: &Session,
    output: &mut Output<W>,
) -> Result<(), Failed>
    ensures tells { RepliesTo session.now fault session.now
        (WritesText W.contents output.old output.new result) }
    ensures failed { Remembers output.old output.new result }
{
    match session.fault() {
        Some(fault) => tell_fault(session, output, fault),
        None => write_flushed(output, &[b"none\n"]),
    }
}

/// Replies to `print` where the script has a printed text.
fn tell_text<W: Write>(output: &mut Output<W>, text: &[u8]) -> Result<(), Failed>
    ensures bytes { WritesText W.contents output.old output.new result
        (printed_text (Some text.now)) }
    ensures failed { Remembers output.old output.new result }
{
    let mut len = itoa::Buffer::new();
    write_flushed(
        output,
        &[
            b"text ",
            len.format(text.len()).as_bytes(),
            b"\n",
            text,
            b"\n",
        ],
    )
}

/// Replies to `print`. For a faulty script this takes no memory.
pub(crate) fn reply_to_print<W: Write>(
    session: &Session,
    output: &mut Output<W>,
) -> Result<(), Failed>
    ensures tells { RepliesTo session.now print session.now
        (WritesText W.contents output.old output.new result) }
    ensures failed { Remembers output.old output.new result }
{
    if session.fault().is_some() {
        return write_flushed(output, &[b"none\n"]);
    }
    match session.print() {
        Ok(Some(text)) => tell_text(output, &text),
        Ok(None) => write_flushed(output, &[b"none\n"]),
        Err(_) => write_flushed(output, &[NO_MEMORY]),
    }
}
