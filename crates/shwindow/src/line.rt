//! Lines as they are held, and what reads them.
ghost use Rattle.std.specs.Prelude.{◌≡◌, ◌+◌, ◌<◌, ◌≤◌, ◌^◌, ℕ, List, IfOk, IsOk, OnErr, drop, false, length};
ghost use Rattle.shwindow.specs.Meter.{risen};

use shsource::Source;
use std::alloc::AllocError;

/// A line as it was read. What it says of its bytes it says of the line alone, wherever that stands.
#[derive(Debug, Drop)]
pub struct HeldLine<K> {
    /// What it is.
    pub kind: K,
    /// How many bytes it has.
    pub len: usize,
    /// It ended so that another line may begin after it. A line that did not end is
    /// the rest of its text, which may be empty.
    pub ended: bool,
}

/// What reads lines of some kind, and counts the bytes that it has read. A line that
/// ended looks no further than it goes.
pub trait LineReader<K> {
    ghost use Rattle.shwindow.specs.Lines.{Reads};
    ghost use Rattle.shwindow.specs.declared.line.HeldLine.{HeldLine};

    /// What lines depend on beside their text, and what reading leaves as it was.
    ghost Setting: { Type 0 };

    ghost setting: { Self → Setting };

    /// Whether a text begins with a line, under a setting.
    ghost is_line: { Setting → List ℕ → HeldLine K → Type 0 };

    /// How many bytes were read so far; it stays at its greatest number.
    ghost meter: { Self → ℕ };

    /// Reads the line that begins at an offset, as if a text began there. The offset is at most the length.
    ///
    /// Want of memory is the only error: the meter is then as before. At the length of
    /// the source no memory is wanted.
    fn read_line<S: Source>(&mut self, source: &S, at: usize) -> Result<HeldLine<K>, AllocError>
        requires { at ≤ length (S.bytes source.now) }
        ensures line { IfOk result (λ line.
            is_line (setting self.old) (drop at (S.bytes source.now)) line) }
        ensures within { IfOk result (λ line. at + line.len ≤ length (S.bytes source.now)) }
        ensures whole { IfOk result
            (λ line. line.ended ≡ false → at + line.len ≡ length (S.bytes source.now)) }
        ensures fits { IfOk result (λ line. at + line.len < 2 ^ 64) }
        ensures setting { setting self.new ≡ setting self.old }
        ensures meter { IfOk result (λ line. meter self.new ≡ risen (meter self.old) line.len) }
        ensures err { OnErr result (meter self.new ≡ meter self.old) }
        ensures end { at ≡ length (S.bytes source.now) → IsOk result };

    /// It keeps to the laws of lines.
    ghost reads: { (s : Setting) → Reads (is_line s) };
}
