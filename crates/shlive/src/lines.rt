//! The lines of requests.
ghost use Rattle.std.specs.Prelude.{◌≡◌, ◌<◌, ◌≤◌, ◌∷◌, ◌++◌, [], ℕ, IfErr, IfOk, List, MatchOption, OnOk, IsTrue, ◌↔◌, length};
ghost use Rattle.shlive.specs.Ahead.{IsReady, StopsAfter, ahead_of};
ghost use Rattle.shlive.specs.Lines.{IsInLine, KeepsText, TakesLine};
ghost use Rattle.shlive.specs.Requests.{line_limit};

use crate::incoming::{Incoming, InputEnd};
use shtext::Input;
use std::io::Read;

/// The most bytes that the line of a request has, or that of a part of a batch.
const LINE_LIMIT: usize = 64;

/// A line, which is kept in a fixed array as far as that has room.
#[derive(Drop)]
pub(crate) struct RequestLine {
    bytes: [u8; LINE_LIMIT],
    len: usize,
    /// It has more bytes.
    over: bool,
}

impl RequestLine {
    /// A line without a byte.
    fn new() -> RequestLine
        ensures { KeepsText result [] }
    {
        RequestLine {
            bytes: [0; LINE_LIMIT],
            len: 0,
            over: false,
        }
    }

    /// Adds a byte.
    fn push(&mut self, byte: u8)
        ensures { (text : List ℕ) → KeepsText self.old text →
            KeepsText self.new (text ++ byte ∷ []) }
    {
        if self.len < LINE_LIMIT {
            self.bytes[self.len] = byte;
            self.len += 1;
        } else {
            self.over = true;
        }
    }

    /// Its bytes, unless it is longer than the line of a request.
    pub(crate) fn text(&self) -> Option<&[u8]>
        ensures { (text : List ℕ) → KeepsText self.now text →
            MatchOption result (line_limit < length text)
            (λ t. (t.now ≡ text) × (length text ≤ line_limit)) }
    {
        if self.over {
            return None;
        }
        self.bytes.get(..self.len)
    }

    /// Whether it has no byte.
    pub(crate) fn is_empty(&self) -> bool
        ensures { (text : List ℕ) → KeepsText self.now text → IsTrue result ↔ (text ≡ []) }
    {
        !self.over && self.len == 0
    }
}

/// Takes a line and the newline that ends it.
pub(crate) fn take_line<R: Read>(
    incoming: &mut Incoming,
    input: &mut Input<R>,
) -> Result<RequestLine, InputEnd>
    requires { IsReady input.old incoming.old }
    ensures ready { OnOk result (IsReady input.new incoming.new) }
    ensures line { IfOk result (TakesLine (ahead_of R.remaining input.old incoming.old)
        (ahead_of R.remaining input.new incoming.new)) }
    ensures cut { IfErr result (StopsAfter IsInLine (ahead_of R.remaining input.old incoming.old)
        (ahead_of R.remaining input.new incoming.new)) }
{
    let mut line = RequestLine::new();
    'bytes: loop {
        if let Err(stop) = incoming.fill(input) {
            return Err(stop);
        }
        let byte = incoming.take();
        if byte == b'\n' {
            return Ok(line);
        }
        line.push(byte);
    }
}
