//! What the program says of an input, and the status that it answers.
ghost use Rattle.std.specs.Prelude.{◌≡◌, ◌||◌, ◌++◌, ℕ, List, Err, false, is_ok, not};
ghost use Rattle.shtext.specs.Device.{Writes, held_of, output_failed};
ghost use Rattle.shsource.specs.Text.{column_of, line_of};
ghost use Rattle.shtool.specs.Report.{IsTold, TellsFault};

use shprint::message;
use shread::Fault;
use shtext::{Failed, Output};
use std::alloc::Global;
use std::io::Write;

/// Why a run was given up.
#[derive(Clone, Copy, Debug, PartialEq, Eq)]
pub enum RunError {
    /// The input cannot be read.
    Unreadable,
    /// It has more bytes than the limit.
    TooLarge,
    /// Memory ran out.
    Memory,
    /// Standard output cannot be written.
    Unwritable,
}

/// Writes a text and flushes it.
pub fn write_flushed<W: Write>(output: &mut Output<W>, text: &[u8]) -> Result<(), Failed>
    ensures bytes { Writes (held_of W.contents output.old) (held_of W.contents output.new)
        (not (is_ok result)) text.now }
    ensures failed { output_failed output.new ≡ (output_failed output.old || not (is_ok result)) }
{
    output.write_whole(text)?;
    output.flush()
}

/// Writes a text of three parts and flushes it. It takes no memory.
fn write_parts<E: Write>(
    errors: &mut Output<E>,
    before: &[u8],
    name: &[u8],
    after: &[u8],
) -> Result<(), Failed>
    ensures bytes { Writes (held_of E.contents errors.old) (held_of E.contents errors.new)
        (not (is_ok result))
        (before.now ++ name.now ++ after.now) }
    ensures failed { output_failed errors.new ≡ (output_failed errors.old || not (is_ok result)) }
{
    errors.write_whole(before)?;
    errors.write_whole(name)?;
    write_flushed(errors, after)
}

/// Says why the run was given up, and answers 2. It takes no memory.
pub fn give_up<E: Write>(name: &str, error: RunError, errors: &mut Output<E>) -> u8
    requires sound { output_failed errors.old ≡ false }
    ensures answer { result ≡ 2 }
    ensures told { (read : List ℕ) → IsTold name.now read (Err error)
        (held_of E.contents errors.old) (held_of E.contents errors.new)
        (output_failed errors.new) result }
{
    let _ = match error {
        RunError::Unreadable => write_parts(
            errors,
            b"shform: cannot read ",
            name.as_bytes(),
            b"\n",
        ),
        RunError::TooLarge => write_parts(errors, b"shform: ", name.as_bytes(), b": too large\n"),
        RunError::Memory => write_flushed(errors, b"shform: out of memory\n"),
        RunError::Unwritable => write_flushed(errors, b"shform: cannot write\n"),
    };
    2
}

/// Tells a fault of the script at a line and a column, and answers 1; where that
/// fails, or finds no memory, 2.
pub fn tell<E: Write>(
    alloc: Global,
    name: &str,
    line: usize,
    col: usize,
    fault: Fault,
    errors: &mut Output<E>,
) -> u8
    requires sound { output_failed errors.old ≡ false }
    ensures told { (read : List ℕ) → line ≡ line_of read fault.at → col ≡ column_of read fault.at →
        TellsFault name.now read fault
        (held_of E.contents errors.old) (held_of E.contents errors.new)
        (output_failed errors.new) result }
{
    let Ok(text) = message(alloc, name.as_bytes(), line, col, fault) else {
        return give_up(name, RunError::Memory, errors);
    };
    match write_flushed(errors, &text) {
        Ok(()) => 1,
        Err(Failed) => 2,
    }
}
