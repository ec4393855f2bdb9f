//! Parts of a text.
ghost use Rattle.std.specs.Prelude.{◌≡◌, ◌+◌, ◌-◌, ◌<◌, ◌≤◌, ◌^◌, ◌++◌, ◌↔◌, IsTrue, drop, length, slice_range, take, vec_capacity, vec_len};

use shsource::Source;

/// Adds the bytes of a text from one offset up to another, for which there is room. It
/// takes no memory.
pub(crate) fn push_part<S: Source>(source: &S, from: usize, to: usize, into: &mut Vec<u8>)
    requires order { from ≤ to }
    requires within { to ≤ length (S.bytes source.now) }
    requires room { vec_len into.old + (to - from) ≤ vec_capacity into.old }
    ensures items { into.new.items ≡ into.old.items ++ slice_range (S.bytes source.now) from to }
    ensures capacity { vec_capacity into.old ≤ vec_capacity into.new }
{
    let mut at = from;
    'runs: while at < to {
        let run = source.run(at);
        let run = &run[..run.len().min(to - at)];
        push_all(into, run);
        at += run.len();
    }
}

/// Adds bytes, for which there is room.
fn push_all(into: &mut Vec<u8>, bytes: &[u8])
    requires { vec_len into.old + length bytes.now ≤ vec_capacity into.old }
    ensures items { into.new.items ≡ into.old.items ++ bytes.now }
    ensures len { vec_len into.new ≡ vec_len into.old + length bytes.now }
    ensures capacity { vec_capacity into.old ≤ vec_capacity into.new }
{
    let _ = into.extend_from_slice(bytes);
}

/// Whether these bytes stand at an offset of a text.
pub(crate) fn stand_at<S: Source>(source: &S, from: usize, bytes: &[u8]) -> bool
    requires within { from + length bytes.now ≤ length (S.bytes source.now) }
    requires room { from + length bytes.now < 2 ^ 64 }
    ensures { IsTrue result ↔ take (length bytes.now) (drop from (S.bytes source.now)) ≡ bytes.now }
{
    let mut at = from;
    let mut rest = bytes;
    'runs: while !rest.is_empty() {
        let run = source.run(at);
        let (front, after) = rest.split_at(run.len().min(rest.len()));
        let is_same = run[..front.len()] == front[..];
        if !is_same {
            return false;
        }
        at += front.len();
        rest = after;
    }
    true
}
