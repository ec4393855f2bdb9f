//! A writer that holds what it is given until it is flushed, so that the device takes a reply, or what is
//! told of a script, by one write.
ghost use Rattle.std.specs.Prelude.{◌≡◌, ◌≤◌, ◌++◌, [], OnErr, OnOk, length, take};
ghost use Rattle.std.specs.Io.KnownBytes.{Appends, Keeps};
ghost use Rattle.shtool.specs.Gathering.{gathered, gathering_held, gathering_writer};

use crate::drop_front::drop_front;
use std::alloc::{AllocError, Global};
use std::io;
use std::io::{Error, ErrorKind, Write};

/// Where nothing is held, this many bytes or more go to the device at once, and no copy of them is made.
/// Memory for more of them is given back at the flush.
const LARGE: usize = 4096;

/// The room that is asked for beyond a large piece: what ends a reply has it, so that nothing grows for that.
const ROOM_AFTER_LARGE: usize = 16;

/// A writer before a device.
#[derive(Drop)]
pub struct Gathering<W> {
    writer: W,
    held: Vec<u8>,
}

/// Writes a beginning of these bytes, which ends where the writer fails, and answers how many it has.
fn write_front<W: Write>(writer: &mut W, bytes: &[u8]) -> usize
    ensures bound { result ≤ length bytes.now }
    ensures bytes { Appends (W.contents writer.old) (W.contents writer.new)
        (take result bytes.now) }
{
    let mut taken = 0;
    while taken < bytes.len() {
        match writer.write(&bytes[taken..]) {
            Ok(count) if count > 0 => taken += count,
            _ => return taken,
        }
    }
    taken
}

impl<W: Write> Gathering<W> {
    /// One that holds nothing.
    pub fn new(alloc: Global, writer: W) -> Gathering<W>
        ensures writer { gathering_writer result ≡ writer }
        ensures held { gathering_held result ≡ [] }
    {
        Gathering {
            writer,
            held: Vec::new(alloc),
        }
    }

    /// Holds these bytes too. Where there is no memory for them, it holds what it held.
    fn hold(&mut self, bytes: &[u8]) -> Result<(), AllocError>
        ensures ok { OnOk result (gathering_held self.new ≡ gathering_held self.old ++ bytes.now) }
        ensures err { OnErr result (gathering_held self.new ≡ gathering_held self.old) }
        ensures writer { gathering_writer self.new ≡ gathering_writer self.old }
    {
        if bytes.len() >= LARGE {
            self.held
                .reserve_exact(bytes.len().saturating_add(ROOM_AFTER_LARGE))?;
        }
        self.held.extend_from_slice(bytes)
    }

    /// Hands on what it holds. What the device does not take, it still holds.
    fn hand_on(&mut self) -> io::Result<()>
        ensures bytes { Keeps (gathered W.contents self.old) (gathered W.contents self.new) }
        ensures held { OnOk result (gathering_held self.new ≡ []) }
    {
        let taken = write_front(&mut self.writer, &self.held);
        drop_front(&mut self.held, taken);
        if self.held.is_empty() {
            Ok(())
        } else {
            Err(Error::from(ErrorKind::WriteZero))
        }
    }
}

impl<W: Write> Write for Gathering<W> {
    ghost contents = { gathered W.contents };

    /// Holds these bytes. Where none is held and they are many, or where there is no memory for them, the
    /// device takes what it can of them, after what was held.
    fn write(&mut self, buf: &[u8]) -> io::Result<usize> {
        let goes_through = self.held.is_empty() && buf.len() >= LARGE;
        if !goes_through && self.hold(buf).is_ok() {
            return Ok(buf.len());
        }
        self.hand_on()?;
        self.writer.write(buf)
    }

    fn flush(&mut self) -> io::Result<()>
        ensures bytes { Keeps (gathered W.contents self.old) (gathered W.contents self.new) }
        ensures held { OnOk result (gathering_held self.new ≡ []) }
    {
        self.hand_on()?;
        if self.held.capacity() > LARGE {
            self.held.shrink_to_fit();
        }
        self.writer.flush()
    }
}
