//! The line and the column of an offset.
ghost use Rattle.std.specs.Prelude.{◌≡◌, ◌+◌, ◌<◌, ◌≤◌, ◌^◌, length};
ghost use Rattle.shtext.specs.Begin.{BeginsLine};
ghost use Rattle.shsource.specs.Text.{column_of, line_of};

use crate::count::newlines_in;
use memchr::memrchr;
use shsource::Source;

/// Where the line begins that goes on after a stretch at an offset: after its last
/// newline, or where the line before it began.
fn line_begin(run: &[u8], from: usize, start: usize) -> usize
    requires { from + length run.now < 2 ^ 64 }
    ensures { BeginsLine from start run.now result }
{
    match memrchr(b'\n', run) {
        Some(last) => from + last + 1,
        None => start,
    }
}

/// The line and the column of an offset in bytes, which is at most the length and below the greatest
/// `usize`. Both count from 1, and the column counts bytes.
pub fn line_col_of<S: Source>(source: &S, at: usize) -> (usize, usize)
    requires within { at ≤ length (S.bytes source.now) }
    requires room { at < usize.MAX }
    ensures line { result.0 ≡ line_of (S.bytes source.now) at }
    ensures column { result.1 ≡ column_of (S.bytes source.now) at }
{
    let (mut line, mut start, mut from) = (1, 0, 0);
    'runs: while from < at {
        let run = source.run(from);
        let run = &run[..run.len().min(at - from)];
        line += newlines_in(run);
        start = line_begin(run, from, start);
        from += run.len();
    }
    (line, at - start + 1)
}
