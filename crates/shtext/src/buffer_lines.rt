//! The lines of a buffer, by the counts of its chunks.
ghost use Rattle.std.specs.Prelude.{◌≡◌, ◌+◌, ◌-◌, ◌<◌, ◌≤◌, true, count_by, length, slice_index, take};
ghost use Rattle.shsource.specs.Text.{IsLineStart, column_of, is_newline, line_of};
ghost use Rattle.shtext.specs.Buffer.{buffer_bytes};

use crate::buffer::Buffer;
use crate::count::newlines_in;
use crate::sums::{place_of, sum_before};
use shsource::Source;

impl Buffer {
    /// The line of an offset.
    fn line(&self, at: usize) -> usize
        requires { at ≤ length (buffer_bytes self.now) }
        ensures { result ≡ line_of (buffer_bytes self.now) at }
    {
        if at == self.len() {
            return sum_before(&self.newlines, self.chunks.len()) + 1;
        }
        let index = self.find(at);
        let begin = self.begin(index);
        let chunk = &self.chunks[index];
        let before = newlines_in(chunk.bytes_to(at - begin));
        sum_before(&self.newlines, index) + before + 1
    }

    /// The offset at which a line begins. There is none for 0, nor after the last
    /// line: a text has a line more than newlines. It looks into one chunk.
    pub fn line_start(&self, n: usize) -> Option<usize>
        ensures { IsLineStart (buffer_bytes self.now) n result }
    {
        if n < 2 {
            return if n == 0 { None } else { Some(0) };
        }
        let newline = n - 2;
        if newline >= sum_before(&self.newlines, self.chunks.len()) {
            return None;
        }
        let index = place_of(&self.newlines, newline);
        let chunk = &self.chunks[index];
        let bytes = chunk.bytes();
        let after = after_newline(bytes, newline - sum_before(&self.newlines, index));
        Some(self.begin(index) + after)
    }

    /// The line and the column of an offset in bytes, which is at most the length.
    /// Both count from 1, and the column counts bytes. It looks into the chunk of the offset
    /// and that of the newline before it.
    pub fn line_col(&self, at: usize) -> (usize, usize)
        requires { at ≤ length (buffer_bytes self.now) }
        ensures line { result.0 ≡ line_of (buffer_bytes self.now) at }
        ensures column { result.1 ≡ column_of (buffer_bytes self.now) at }
    {
        let line = self.line(at);
        match self.line_start(line) {
            Some(start) => (line, at - start + 1),
            None => (line, 1),
        }
    }
}

/// The place after the newline that so many come before.
fn after_newline(bytes: &[u8], count: usize) -> usize
    requires { count < count_by is_newline bytes.now }
    ensures some { 0 < result }
    ensures within { result ≤ length bytes.now }
    ensures newline { is_newline (slice_index bytes.now (result - 1)) ≡ true }
    ensures count { count_by is_newline (take result bytes.now) ≡ count + 1 }
{
    let mut passed = 0;
    let mut at = 0;
    'bytes: while at < bytes.len() {
        let byte = bytes[at];
        at += 1;
        if byte == b'\n' {
            if passed == count {
                return at;
            }
            passed += 1;
        }
    }
    at
}
