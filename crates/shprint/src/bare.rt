//! Texts without their continuations.
ghost use Rattle.std.specs.Prelude.{◌≡◌, ◌++◌, IfOk};
ghost use Rattle.shast.specs.Shape.{bare_at};

use shast::Span;
use shsource::Source;
use std::alloc::AllocError;

/// Adds the bytes of a span without its continuations. Such a span is short: it is
/// that of a name or a number.
///
/// # Errors
///
/// [`AllocError`], where memory runs out. What was added until then stands there.
pub fn add_bare<S: Source>(text: &mut Vec<u8>, source: &S, span: Span) -> Result<(), AllocError>
    ensures { IfOk result (λ _. text.new.items ≡ text.old.items
        ++ bare_at (S.bytes source.now) span) }
{
    let mut at = span.start;
    'bytes: while at < span.end {
        let Some(byte) = source.byte(at) else {
            return Ok(());
        };
        let has_next = 1 < span.end - at;
        if byte == b'\\' && has_next && source.byte(at + 1) == Some(b'\n') {
            at += 2;
        } else {
            text.push(byte)?;
            at += 1;
        }
    }
    Ok(())
}
