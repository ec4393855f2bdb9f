//! Writing replies.
ghost use Rattle.std.specs.Prelude.{flat_map};
ghost use Rattle.shlive.specs.Outputs.{Remembers, WritesText};

use shtext::{Failed, Output};
use std::io::Write;

/// Writes the pieces of a text, one after the other, and flushes it. It takes no memory.
pub(crate) fn write_flushed<W: Write>(
    output: &mut Output<W>,
    pieces: &[&[u8]],
) -> Result<(), Failed>
    ensures bytes { WritesText W.contents output.old output.new result
        (flat_map (λ p. p.now) pieces.now) }
    ensures failed { Remembers output.old output.new result }
{
    for piece in pieces {
        if output.write_whole(piece).is_err() {
            return Err(Failed);
        }
    }
    output.flush()
}
