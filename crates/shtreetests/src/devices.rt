//! Readers and writers made for tests, which take no memory.
use std::io;
use std::io::{Error, Read, Write};

/// A reader that gives at most `step` bytes at a time, and fails at one of its reads.
#[derive(Drop)]
pub struct Tape<'a> {
    rest: &'a [u8],
    step: usize,
    reads: usize,
    fails_at: usize,
}

impl<'a> Tape<'a> {
    /// One that never fails.
    pub fn new(rest: &'a [u8], step: usize) -> Tape<'a> {
        Tape::failing(rest, step, usize::MAX)
    }

    /// One that fails at this of its reads, counted from 1.
    pub fn failing(rest: &'a [u8], step: usize, fails_at: usize) -> Tape<'a> {
        Tape {
            rest,
            step,
            reads: 0,
            fails_at,
        }
    }
}

impl<'a> Read for Tape<'a> {
    fn read(&mut self, buf: &mut [u8]) -> io::Result<usize> {
        self.reads = self.reads.wrapping_add(1);
        if self.reads == self.fails_at {
            return Err(Error::from(io::ErrorKind::Interrupted));
        }
        let count = self.step.min(buf.len()).min(self.rest.len());
        buf[..count].copy_from_slice(&self.rest[..count]);
        self.rest = &self.rest[count..];
        Ok(count)
    }
}

/// A reader of so many bytes of one kind.
#[derive(Drop)]
pub struct Same(pub u8, pub usize);

impl Read for Same {
    fn read(&mut self, buf: &mut [u8]) -> io::Result<usize> {
        let count = self.1.min(buf.len());
        buf[..count].fill(self.0);
        self.1 -= count;
        Ok(count)
    }
}

/// The most bytes of a page.
pub const PAGE: usize = 512;

/// A writer that takes so many bytes, at most `step` at a time, and fails where it is
/// full, and at one of its flushes.
#[derive(Drop)]
pub struct Page {
    bytes: [u8; PAGE],
    len: usize,
    pub room: usize,
    pub step: usize,
    /// It answers 0 where it is full, and does not fail.
    pub takes_nothing: bool,
    /// It is full once: whatever comes then it takes.
    pub is_emptied: bool,
    flushes: usize,
    pub fails_at_flush: usize,
}

impl Page {
    /// One that is empty.
    pub fn new(room: usize, step: usize) -> Page {
        Page {
            bytes: [0; PAGE],
            len: 0,
            room,
            step,
            takes_nothing: false,
            is_emptied: false,
            flushes: 0,
            fails_at_flush: usize::MAX,
        }
    }

    /// What it took.
    pub fn text(&self) -> &[u8] {
        &self.bytes[..self.len.min(PAGE)]
    }
}

impl Write for Page {
    fn write(&mut self, buf: &[u8]) -> io::Result<usize> {
        let start = self.len.min(PAGE);
        let count = buf.len().min(self.step).min(PAGE - start).min(self.room);
        if count == 0 && !buf.is_empty() {
            if self.is_emptied {
                self.room = PAGE;
            }
            if self.takes_nothing {
                return Ok(0);
            }
            return Err(Error::from(io::ErrorKind::Other));
        }
        self.bytes[start..start + count].copy_from_slice(&buf[..count]);
        self.len = start + count;
        self.room -= count;
        Ok(count)
    }

    fn flush(&mut self) -> io::Result<()> {
        self.flushes = self.flushes.wrapping_add(1);
        if self.flushes == self.fails_at_flush {
            Err(Error::from(io::ErrorKind::Other))
        } else {
            Ok(())
        }
    }
}
