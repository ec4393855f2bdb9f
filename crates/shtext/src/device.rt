//! The ends that bytes come from and go to, a reader and a writer, which remember how their devices fared.
ghost use Rattle.std.specs.Prelude.{◌≡◌, ◌<◌, ◌≤◌, ◌||◌, IfOk, false, is_ok, length, not};
ghost use Rattle.std.specs.Io.{ReadsAtMost};
ghost use Rattle.std.specs.Io.KnownBytes.{Keeps, ReadConsumes, WriteAppends};
ghost use Rattle.shtext.specs.Device.{Writes, held_of, input_ended, input_failed, input_reader, left_of, meets_end, output_failed, output_writer};

use std::io::{Read, Write};

/// A device failed in this call.
#[derive(Clone, Copy, Debug, PartialEq, Eq)]
pub struct Failed;

/// A reader, with what its reads met so far.
#[derive(Drop)]
pub struct Input<R> {
    reader: R,
    failed: bool,
    ended: bool,
}

impl<R: Read> Input<R> {
    /// An end over this reader. No read of it has failed or met the end.
    pub fn new(reader: R) -> Input<R>
        ensures reader { input_reader result ≡ reader }
        ensures failed { input_failed result ≡ false }
        ensures ended { input_ended result ≡ false }
    {
        Input {
            reader,
            failed: false,
            ended: false,
        }
    }

    /// Reads once, into the front of the piece, and answers how many bytes came. An interrupted read is a
    /// failed one. After `Failed` the reader has lost no byte.
    pub fn read(&mut self, piece: &mut [u8]) -> Result<usize, Failed>
        ensures bound { ReadsAtMost result piece.new }
        ensures bytes { ReadConsumes (left_of R.remaining self.old)
            (left_of R.remaining self.new) result piece.new }
        ensures failed { input_failed self.new ≡ (input_failed self.old || not (is_ok result)) }
        ensures ended { input_ended self.new
            ≡ (input_ended self.old || meets_end result (length piece.new)) }
    {
        match self.reader.read(piece) {
            Ok(count) => {
                if count == 0 && !piece.is_empty() {
                    self.ended = true;
                }
                Ok(count)
            }
            Err(_) => {
                self.failed = true;
                Err(Failed)
            }
        }
    }

    /// Whether a read failed.
    pub fn failed(&self) -> bool
        ensures { result ≡ input_failed self.now }
    {
        self.failed
    }

    /// Whether a read met the end: it gave no byte, though there was room and nothing failed.
    pub fn ended(&self) -> bool
        ensures { result ≡ input_ended self.now }
    {
        self.ended
    }
}

/// A writer, with what its writes met so far.
#[derive(Drop)]
pub struct Output<W> {
    writer: W,
    failed: bool,
}

impl<W: Write> Output<W> {
    /// An end over this writer. No write of it has failed.
    pub fn new(writer: W) -> Output<W>
        ensures writer { output_writer result ≡ writer }
        ensures failed { output_failed result ≡ false }
    {
        Output {
            writer,
            failed: false,
        }
    }

    /// Writes once, a beginning of the piece, and answers how many bytes the writer took. Where it took none
    /// of a piece that is not empty, it failed. After `Failed` the writer has taken no byte.
    pub fn write(&mut self, piece: &[u8]) -> Result<usize, Failed>
        ensures bound { IfOk result (λ n. n ≤ length piece.now) }
        ensures some { IfOk result (λ n. 0 < length piece.now → 0 < n) }
        ensures bytes { WriteAppends (held_of W.contents self.old)
            (held_of W.contents self.new) result piece.now }
        ensures failed { output_failed self.new ≡ (output_failed self.old || not (is_ok result)) }
    {
        match self.writer.write(piece) {
            Ok(count) if count > 0 || piece.is_empty() => Ok(count),
            _ => {
                self.failed = true;
                Err(Failed)
            }
        }
    }

    /// Has the writer hand on what it holds back.
    pub fn flush(&mut self) -> Result<(), Failed>
        ensures bytes { Keeps (held_of W.contents self.old) (held_of W.contents self.new) }
        ensures failed { output_failed self.new ≡ (output_failed self.old || not (is_ok result)) }
    {
        match self.writer.flush() {
            Ok(()) => Ok(()),
            Err(_) => {
                self.failed = true;
                Err(Failed)
            }
        }
    }

    /// Whether a write or a flush failed.
    pub fn failed(&self) -> bool
        ensures { result ≡ output_failed self.now }
    {
        self.failed
    }

    /// Writes the whole piece, or where the writer fails the beginning that it took.
    pub fn write_whole(&mut self, piece: &[u8]) -> Result<(), Failed>
        ensures bytes { Writes (held_of W.contents self.old) (held_of W.contents self.new)
            (not (is_ok result)) piece.now }
        ensures failed { output_failed self.new ≡ (output_failed self.old || not (is_ok result)) }
    {
        let mut at = 0;
        while at < piece.len() {
            at += self.write(&piece[at..])?;
        }
        Ok(())
    }
}
