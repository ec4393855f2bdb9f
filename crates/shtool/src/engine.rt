//! A check and a print over readers and writers: an input is read to its end, under the limit, and reported
//! on. A session has its FILE read here too.
ghost use Rattle.std.specs.Prelude.{◌≡◌, ◌≢◌, ◌+◌, ◌<◌, ◌≤◌, ◌==◌, ℕ, List, [], IfErr, IfOk, false, length, take, true};
ghost use Rattle.std.specs.Io.KnownBytes.{Consumes, IsAtEnd};
ghost use Rattle.shtext.specs.Device.{held_of, input_ended, input_failed, left_of, output_failed};
ghost use Rattle.shtext.specs.Edit.{limit};
ghost use Rattle.shtool.specs.Report.{IsPrintReport, IsReport, GivenUpAfter, GivenUpFor};

use crate::partial_script::PartialScript;
use crate::printed_part::{PrintedPart, Unprinted};
use crate::report::{RunError, give_up, tell, write_flushed};
use crate::sink::Sink;
use shprint::Layout;
use shread::{Edition, ReadError};
use shtext::{Failed, Input, LIMIT, Output};
use std::alloc::Global;
use std::io::{Read, Write};

/// The most bytes that are read at once.
const READ_SIZE: usize = 16_384;

/// Reads once, into the front of the piece, what follows so many bytes. Answers how many came: none at the
/// end. It never reads past the first byte beyond the limit.
fn read_piece<R: Read>(
    input: &mut Input<R>,
    piece: &mut [u8],
    held: usize,
) -> Result<usize, RunError>
    requires sound { input_failed input.old ≡ false }
    requires open { input_ended input.old ≡ false }
    requires low { held ≤ limit }
    requires some { 0 < length piece.old }
    ensures size { length piece.new ≡ length piece.old }
    ensures ok { IfOk result (λ count. (count ≤ length piece.new) × (held + count ≤ limit)
        × (Consumes (left_of R.remaining input.old) (left_of R.remaining input.new)
        (take count piece.new))
        × (input_failed input.new ≡ false) × (input_ended input.new ≡ (count == 0))
        × (count ≡ 0 → IsAtEnd (left_of R.remaining input.new))) }
    ensures err { IfErr result (λ error. (more : List ℕ)
        × (Consumes (left_of R.remaining input.old) (left_of R.remaining input.new) more)
        × GivenUpAfter held more (input_failed input.new) (input_ended input.new) error) }
{
    let room = (LIMIT - held + 1).min(piece.len());
    let count = match input.read(&mut piece[..room]) {
        Ok(count) => count,
        Err(Failed) => return Err(RunError::Unreadable),
    };
    if count > LIMIT - held {
        return Err(RunError::TooLarge);
    }
    Ok(count)
}

/// Reads the input to its end into a sink. It stands apart, so that no piece lies on the stack once it is
/// done.
#[inline(never)]
fn read_into<R: Read, S: Sink>(input: &mut Input<R>, mut sink: S) -> Result<S, RunError>
    requires sound { input_failed input.old ≡ false }
    requires open { input_ended input.old ≡ false }
    requires empty { (setup : S.Setup) × S.holds setup [] sink }
    ensures ok { IfOk result
        (λ full. (read : List ℕ)
        × ((setup : S.Setup) → S.holds setup [] sink → S.holds setup read full)
        × (Consumes (left_of R.remaining input.old) (left_of R.remaining input.new) read)
        × (IsAtEnd (left_of R.remaining input.new)) × (length read ≤ limit)
        × (input_failed input.new ≡ false) × (input_ended input.new ≡ true)) }
    ensures err { IfErr result (λ error. (read : List ℕ)
        × (Consumes (left_of R.remaining input.old) (left_of R.remaining input.new) read)
        × GivenUpFor read (input_failed input.new) (input_ended input.new) error) }
{
    let mut held = 0;
    let mut piece = [0; READ_SIZE];
    'pieces: loop {
        let count = read_piece(input, &mut piece, held)?;
        if count == 0 {
            return Ok(sink);
        }
        let Ok(()) = sink.take(&piece[..count]) else {
            return Err(RunError::Memory);
        };
        held += count;
    }
}

/// The whole input. Memory grows with what was read.
pub fn read_whole<R: Read>(alloc: Global, input: &mut Input<R>) -> Result<Vec<u8>, RunError>
    requires sound { input_failed input.old ≡ false }
    requires open { input_ended input.old ≡ false }
    ensures ok { IfOk result
        (λ text. Consumes (left_of R.remaining input.old) (left_of R.remaining input.new) text.items
        × (IsAtEnd (left_of R.remaining input.new)) × (length text.items ≤ limit)
        × (input_failed input.new ≡ false) × (input_ended input.new ≡ true)) }
    ensures err { IfErr result (λ error. (read : List ℕ)
        × (Consumes (left_of R.remaining input.old) (left_of R.remaining input.new) read)
        × GivenUpFor read (input_failed input.new) (input_ended input.new) error) }
{
    read_into(input, Vec::new(alloc))
}

/// Reads the input to its end by an edition, and tells the first fault of the script on `errors`, or why
/// there is no verdict. The answer is 0 for a faultless script, 1 for a faulty one, and 2 where an end or
/// memory failed, or the script is too large.
pub fn check_engine<R: Read, O: Write, E: Write>(
    alloc: Global,
    edition: Edition,
    name: &str,
    input: &mut Input<R>,
    output: &mut Output<O>,
    errors: &mut Output<E>,
) -> u8
    requires sound { input_failed input.old ≡ false }
    requires open { input_ended input.old ≡ false }
    requires unbroken { output_failed errors.old ≡ false }
    ensures report { IsReport edition name.now (left_of R.remaining input.old)
        (left_of R.remaining input.new)
        (input_failed input.new) (input_ended input.new)
        (held_of E.contents errors.old) (held_of E.contents errors.new)
        (output_failed errors.new) result }
    ensures whole { result ≢ 2 → (input_ended input.new ≡ true)
        × IsAtEnd (left_of R.remaining input.new) }
    ensures silent { output.new ≡ output.old }
{
    // No byte is written on it: it is taken so that `silent` can say so.
    let _ = &*output;
    let part = match read_into(input, PartialScript::new(alloc, edition)) {
        Ok(part) => part,
        Err(error) => return give_up(name, error, errors),
    };
    match part.first_fault(alloc) {
        Ok(None) => 0,
        Ok(Some(found)) => tell(alloc, name, found.line, found.col, found.fault, errors),
        Err(ReadError::Memory) => give_up(name, RunError::Memory, errors),
    }
}

/// Reads the input to its end by an edition, and writes the printed text of the script on `output`. A faulty
/// script writes nothing there: its first fault is told on `errors`, or why there is no text. The answer is 0
/// for a faultless script, 1 for a faulty one, and 2 where an end or memory failed, or the script is too
/// large.
pub fn print_engine<R: Read, O: Write, E: Write>(
    alloc: Global,
    edition: Edition,
    layout: &Layout,
    name: &str,
    input: &mut Input<R>,
    output: &mut Output<O>,
    errors: &mut Output<E>,
) -> u8
    requires sound { input_failed input.old ≡ false }
    requires open { input_ended input.old ≡ false }
    requires unbroken { output_failed errors.old ≡ false }
    requires whole { output_failed output.old ≡ false }
    ensures report { IsPrintReport edition layout.now name.now (left_of R.remaining input.old)
        (left_of R.remaining input.new)
        (input_failed input.new) (input_ended input.new)
        (held_of O.contents output.old) (held_of O.contents output.new) (output_failed output.new)
        (held_of E.contents errors.old) (held_of E.contents errors.new)
        (output_failed errors.new) result }
    ensures whole { result ≢ 2 → (input_ended input.new ≡ true)
        × IsAtEnd (left_of R.remaining input.new) }
{
    let printed = match read_into(input, PrintedPart::new(alloc, edition, layout)) {
        Ok(printed) => printed,
        Err(error) => return give_up(name, error, errors),
    };
    let text = match printed.text() {
        Ok(text) => text,
        Err(Unprinted::Faulty(found)) => {
            return tell(alloc, name, found.line, found.col, found.fault, errors);
        }
        Err(Unprinted::Memory) => return give_up(name, RunError::Memory, errors),
    };
    match write_flushed(output, &text) {
        Ok(()) => 0,
        Err(Failed) => give_up(name, RunError::Unwritable, errors),
    }
}
