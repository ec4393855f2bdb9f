//! The bytes that come from an input, read a piece at a time.
ghost use Rattle.std.specs.Prelude.{◌≡◌, ◌+◌, ◌-◌, ◌<◌, ◌≤◌, ◌∷◌, [], IfErr, OnOk, drop, length, take};
ghost use Rattle.shlive.specs.Ahead.{IsReady, StopsBy, TakesBytes, ahead_of};

use shtext::{Failed, Input};
use std::io::Read;
use std::marker::Model;

/// The most bytes that are read at once.
const READ_SIZE: usize = 2_048;

/// As many bytes as no input of a run has.
const TOO_MANY: u64 = 1 << 63;

/// Why no more bytes come.
#[derive(Clone, Copy, Debug, PartialEq, Eq)]
pub(crate) enum InputEnd {
    /// The input ended.
    Met,
    /// A read failed.
    Unreadable,
    /// More bytes came than a run counts.
    TooLong,
}

/// The bytes that were read and wait to be taken, and how many were read so far.
#[derive(Drop)]
pub(crate) struct Incoming {
    piece: [u8; READ_SIZE],
    at: usize,
    end: usize,
    count: u64,
}

impl Model for Incoming {
    ghost use Rattle.shlive.specs.Waiting.{Waiting};

    ghost Value = { Waiting };

    ghost use Rattle.shlive.specs.Incoming.{IsRow, waiting};

    ghost view = { waiting };

    ghost invariant = { IsRow };
}

impl Incoming {
    /// Nothing was read yet.
    pub(crate) fn new() -> Incoming
        ensures bytes { result.bytes ≡ [] }
        ensures count { result.count ≡ 0 }
    {
        Incoming {
            piece: [0; READ_SIZE],
            at: 0,
            end: 0,
            count: 0,
        }
    }

    /// Sees to it that a byte waits: reads where none does.
    pub(crate) fn fill<R: Read>(&mut self, input: &mut Input<R>) -> Result<(), InputEnd>
        requires { IsReady input.old self.old }
        ensures some { OnOk result (0 < length self.new.bytes) }
        ensures ready { OnOk result (IsReady input.new self.new) }
        ensures takes { TakesBytes (ahead_of R.remaining input.old self.old)
            (ahead_of R.remaining input.new self.new) [] }
        ensures stops { IfErr result (StopsBy (ahead_of R.remaining input.new self.new)) }
    {
        if self.at < self.end {
            return Ok(());
        }
        let count = match input.read(&mut self.piece) {
            Ok(count) => count,
            Err(Failed) => return Err(InputEnd::Unreadable),
        };
        if count == 0 {
            return Err(InputEnd::Met);
        }
        self.at = 0;
        self.end = count;
        self.count += count as u64;
        if self.count < TOO_MANY {
            Ok(())
        } else {
            Err(InputEnd::TooLong)
        }
    }

    /// The bytes that wait, at most so many.
    pub(crate) fn front(&self, most: usize) -> &[u8]
        ensures { result.now ≡ take most self.now.bytes }
    {
        let count = most.min(self.end - self.at);
        &self.piece[self.at..self.at + count]
    }

    /// Passes so many of the bytes that wait.
    pub(crate) fn pass(&mut self, count: usize)
        requires { count ≤ length self.old.bytes }
        ensures bytes { self.new.bytes ≡ drop count self.old.bytes }
        ensures count { self.new.count ≡ self.old.count }
    {
        self.at += count;
    }

    /// Takes the first byte that waits.
    pub(crate) fn take(&mut self) -> u8
        requires { 0 < length self.old.bytes }
        ensures bytes { self.old.bytes ≡ result ∷ self.new.bytes }
        ensures count { self.new.count ≡ self.old.count }
    {
        let byte = self.piece[self.at];
        self.at += 1;
        byte
    }
}
