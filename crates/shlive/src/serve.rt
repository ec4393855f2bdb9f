//! A session over a reader and a writer.
ghost use Rattle.std.specs.Prelude.{◌≡◌, IfSome, IsOk, ℕ, List, OnOk, false, length};
ghost use Rattle.shtext.specs.Device.{output_failed};
ghost use Rattle.shlive.specs.Ahead.{Ahead, IsOpen, IsReady, ahead_of};
ghost use Rattle.shlive.specs.Lines.{KeepsText};
ghost use Rattle.shlive.specs.RequestKinds.{HasPart, HasParts};
ghost use Rattle.shlive.specs.Outputs.{Remembers, WritesText};
ghost use Rattle.shlive.specs.Parts.{Comes};
ghost use Rattle.shlive.specs.Requests.{Parser, next_by_form, next_request_of, kind_of_line, request_of};
ghost use Rattle.shlive.specs.Runs.{HasAnswer, IsSessionRun, run_state};
ghost use Rattle.shlive.specs.Turns.{IsTurn, RepliesTo, end_between, end_inside, turn_state};
ghost use Rattle.shlive.specs.declared.serve.End.TheVariants.{Unwritable};

use crate::incoming::{Incoming, InputEnd};
use crate::lines::{RequestLine, take_line};
use crate::parts::{Flaw, Parts, take_splices};
use crate::replies::{
    reply_to_at, reply_to_edit, reply_to_fault, reply_to_outline, reply_to_print,
};
use crate::reply::write_flushed;
use crate::request_kind::{EditForm, Question, RequestKind, request_kind_of};
use crate::session::Session;
use shtext::{Failed, Input, Output};
use std::alloc::Global;
use std::io::{Read, Write};

/// Why a run ended.
#[derive(Clone, Copy, Debug, PartialEq, Eq)]
pub(crate) enum End {
    /// The input ended where a request would begin.
    Clean,
    /// `quit` was read.
    Quit,
    /// The input ended inside a request.
    Cut,
    /// A read failed.
    Unreadable,
    /// More bytes came than a run counts.
    TooLong,
    /// A write or a flush failed.
    Unwritable,
}

impl From<Failed> for End {
    ghost from_gives = { λ _ end. end ≡ Unwritable };

    fn from(_failed: Failed) -> End {
        End::Unwritable
    }
}

impl End {
    /// Why a run ends for which no more bytes come, where a request would begin.
    fn between(stop: InputEnd) -> End
        ensures { result ≡ end_between stop }
    {
        match stop {
            InputEnd::Met => End::Clean,
            InputEnd::Unreadable => End::Unreadable,
            InputEnd::TooLong => End::TooLong,
        }
    }

    /// Why a run ends for which no more bytes come, inside a request.
    fn inside(stop: InputEnd) -> End
        ensures { result ≡ end_inside stop }
    {
        match stop {
            InputEnd::Met => End::Cut,
            InputEnd::Unreadable => End::Unreadable,
            InputEnd::TooLong => End::TooLong,
        }
    }

    /// The answer of a run that ended so.
    fn answer(self, session: &Session) -> u8
        ensures { HasAnswer session.now.how.edition self session.now.bytes result }
    {
        match self {
            End::Clean | End::Quit => session.status(),
            End::Cut | End::Unreadable | End::TooLong | End::Unwritable => 2,
        }
    }
}

/// What a line asks for. One that is too long is no request.
fn kind_of_line(line: &RequestLine) -> Option<RequestKind>
    ensures is { (text : List ℕ) → KeepsText line.now text → result ≡ kind_of_line text }
    ensures parts { IfSome result HasParts }
{
    match line.text() {
        Some(text) => request_kind_of(text),
        None => None,
    }
}

/// Replies to a question.
fn reply_to<W: Write>(
    alloc: Global,
    session: &Session,
    output: &mut Output<W>,
    question: Question,
) -> Result<(), Failed>
    ensures tells { RepliesTo session.now (request_of question) session.now
        (WritesText W.contents output.old output.new result) }
    ensures failed { Remembers output.old output.new result }
{
    match question {
        Question::Outline => reply_to_outline(alloc, session, output),
        Question::At(at) => reply_to_at(alloc, session, output, at),
        Question::Fault => reply_to_fault(session, output),
        Question::Print => reply_to_print(session, output),
    }
}

/// Replies to an edit as it came.
fn answer_came<W: Write>(
    alloc: Global,
    session: &mut Session,
    output: &mut Output<W>,
    parts: &Parts,
    came: Result<Result<(), Flaw>, InputEnd>,
) -> Result<(), End>
    requires unbroken { output_failed output.old ≡ false }
    ensures unbroken { OnOk result (output_failed output.new ≡ false) }
    ensures came { OnOk result (IsOk came) }
    ensures turn { (parser : Parser) (old new : Ahead) →
        Comes parser old new parts.now (length session.old.bytes) came →
        IsTurn parser (turn_state W.contents session.old old output.old)
        (turn_state W.contents session.new new output.new) result }
{
    let came = match came {
        Ok(came) => came,
        Err(stop) => return Err(End::inside(stop)),
    };
    Ok(reply_to_edit(alloc, session, output, parts, came)?)
}

/// Takes what an edit brings, and replies.
fn answer_edit<R: Read, W: Write>(
    alloc: Global,
    session: &mut Session,
    incoming: &mut Incoming,
    input: &mut Input<R>,
    output: &mut Output<W>,
    form: EditForm,
) -> Result<(), End>
    requires some { HasPart form }
    requires ready { IsReady input.old incoming.old }
    requires unbroken { output_failed output.old ≡ false }
    ensures ready { OnOk result (IsReady input.new incoming.new) }
    ensures unbroken { OnOk result (output_failed output.new ≡ false) }
    ensures turn { IsTurn (next_by_form form)
        (turn_state W.contents session.old (ahead_of R.remaining input.old incoming.old) output.old)
        (turn_state W.contents session.new (ahead_of R.remaining input.new incoming.new) output.new)
        result }
{
    let mut parts = Parts::new(alloc, session.tally());
    let came = take_splices(alloc, incoming, input, form, &mut parts);
    answer_came(alloc, session, output, &parts, came)
}

/// Takes the next request and replies to it.
fn answer_next<R: Read, W: Write>(
    alloc: Global,
    session: &mut Session,
    incoming: &mut Incoming,
    input: &mut Input<R>,
    output: &mut Output<W>,
) -> Result<(), End>
    requires ready { IsReady input.old incoming.old }
    requires unbroken { output_failed output.old ≡ false }
    ensures ready { OnOk result (IsReady input.new incoming.new) }
    ensures unbroken { OnOk result (output_failed output.new ≡ false) }
    ensures turn { IsTurn next_request_of
        (turn_state W.contents session.old (ahead_of R.remaining input.old incoming.old) output.old)
        (turn_state W.contents session.new (ahead_of R.remaining input.new incoming.new) output.new)
        result }
{
    if let Err(stop) = incoming.fill(input) {
        return Err(End::between(stop));
    }
    let line = match take_line(incoming, input) {
        Ok(line) => line,
        Err(stop) => return Err(End::inside(stop)),
    };
    match kind_of_line(&line) {
        Some(RequestKind::Edit(form)) => answer_edit(alloc, session, incoming, input, output, form),
        Some(RequestKind::Ask(question)) => Ok(reply_to(alloc, session, output, question)?),
        Some(RequestKind::Quit) => Err(End::Quit),
        None => Ok(write_flushed(output, &[b"no request\n"])?),
    }
}

/// Reads requests, answers each of them and writes the replies, until `quit` or the end of the input.
/// The answer is then the status of the script that the session holds: 0 for a script without a fault,
/// 1 for one with a fault. It is 2 where the input ends inside a request, where a read, a write or a
/// flush fails, and where the input has 2^63 bytes or more.
///
/// Memory is taken for the script with the trees of its lines; for an edit until it is answered: its payload,
/// and the bytes from its first splice to its last, those that stand there and those that will; and for the
/// reply to `outline`, `at` or `print` until it is written. Other replies take none.
pub fn run<R: Read, W: Write>(
    alloc: Global,
    session: &mut Session,
    input: &mut Input<R>,
    output: &mut Output<W>,
) -> u8
    requires open { IsOpen input.old }
    requires unbroken { output_failed output.old ≡ false }
    ensures run { IsSessionRun
        (run_state R.remaining W.contents session.old input.old output.old)
        (run_state R.remaining W.contents session.new input.new output.new) result }
    ensures how { session.new.how ≡ session.old.how }
{
    let mut incoming = Incoming::new();
    'requests: loop {
        if let Err(end) = answer_next(alloc, session, &mut incoming, input, output) {
            return end.answer(session);
        }
    }
}
