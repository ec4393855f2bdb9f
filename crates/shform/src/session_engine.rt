//! The tool that keeps a script open: FILE is read to its end, and a session on what it has answers
//! requests.
ghost use Rattle.std.specs.Prelude.{◌≡◌, ◌≤◌, ℕ, List, IfErr, IfOk, IfSome, IsOk, false, length};
ghost use Rattle.shlive.specs.Ahead.{IsOpen};
ghost use Rattle.shread.specs.Answers.{edition_of, meter_of};
ghost use Rattle.shtext.specs.Device.{input_ended, input_failed, output_failed};
ghost use Rattle.shtext.specs.Edit.{limit};
ghost use Rattle.shform.specs.ProgramEnds.{program_ends, devices};
ghost use Rattle.shform.specs.SessionReport.{IsGivenUp, IsReadWhole, IsSessionReport, how_of, opened_on};

use shlive::Session;
use shprint::Layout;
use shread::Reader;
use shtext::{Input, Output};
use shtool::{RunError, give_up, read_whole};
use std::alloc::Global;
use std::io::{Read, Write};

/// A session on these bytes. They are within the limit, so that only memory can be wanting; for no bytes
/// it cannot.
fn session_on(
    alloc: Global,
    reader: Reader,
    layout: Layout,
    bytes: &[u8],
) -> Result<Session, RunError>
    requires low { length bytes.now ≤ limit }
    ensures ok { IfOk result (λ session.
        session ≡ opened_on (how_of (edition_of reader) layout) (meter_of reader) bytes.now) }
    ensures err { IfErr result (λ error. error ≡ RunError.Memory) }
    ensures empty { length bytes.now ≡ 0 → IsOk result }
{
    match Session::open(alloc, reader, layout, bytes) {
        Ok(session) => Ok(session),
        Err(_) => Err(RunError::Memory),
    }
}

/// A session on what FILE has, read to its end; without FILE on no bytes.
fn open_session<F: Read>(
    alloc: Global,
    reader: Reader,
    layout: Layout,
    file: &mut Option<Input<F>>,
) -> Result<Session, RunError>
    requires fresh { IfSome file.old IsOpen }
    ensures ok { IfOk result
        (λ session. (read : List ℕ) × IsReadWhole F.remaining file.old file.new read
        × (session ≡ opened_on (how_of (edition_of reader) layout) (meter_of reader) read)) }
    ensures err { IfErr result (λ error. (read : List ℕ)
        × IsGivenUp F.remaining file.old file.new read error) }
{
    match file {
        None => session_on(alloc, reader, layout, b""),
        Some(input) => {
            let bytes = read_whole(alloc, input)?;
            session_on(alloc, reader, layout, &bytes)
        }
    }
}

/// Reads FILE to its end, opens a session on its bytes, without FILE on none, and answers requests as
/// `shlive::run` does, with its answer. Where FILE is given up, or there is no memory for the session, no
/// request is read: why that is, is told on `errors`, and the answer is 2.
#[inline(never)]
pub fn session_engine<F: Read, R: Read, O: Write, E: Write>(
    alloc: Global,
    reader: Reader,
    layout: Layout,
    name: &str,
    file: &mut Option<Input<F>>,
    requests: &mut Input<R>,
    replies: &mut Output<O>,
    errors: &mut Output<E>,
) -> u8
    requires fresh { IfSome file.old IsOpen }
    requires sound { input_failed requests.old ≡ false }
    requires open { input_ended requests.old ≡ false }
    requires whole { output_failed replies.old ≡ false }
    requires unbroken { output_failed errors.old ≡ false }
    ensures report { IsSessionReport (devices F.remaining R.remaining O.contents E.contents)
        (how_of (edition_of reader) layout) (meter_of reader) name.now
        (program_ends file.old requests.old replies.old errors.old)
        (program_ends file.new requests.new replies.new errors.new) result }
{
    match open_session(alloc, reader, layout, file) {
        Ok(mut session) => shlive::run(alloc, &mut session, requests, replies),
        Err(error) => give_up(name, error, errors),
    }
}
