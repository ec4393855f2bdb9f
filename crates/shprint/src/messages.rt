//! The line that tells a fault.
ghost use Rattle.std.specs.Prelude.{◌≡◌, IfOk};
ghost use Rattle.shprint.specs.Message.{message_text, text_of_kind};

use itoa::Buffer;
use shgrammar::{Fault, FaultKind};
use std::alloc::{AllocError, Global};

/// What is said of a fault of this kind.
fn text_of(kind: FaultKind) -> &'static [u8]
    ensures { result.now ≡ text_of_kind kind }
{
    match kind {
        FaultKind::UnclosedSingle => b"unclosed single quote",
        FaultKind::UnclosedDouble => b"unclosed double quote",
        FaultKind::UnclosedBackquote => b"unclosed backquote",
        FaultKind::UnclosedParam => b"unclosed parameter expansion",
        FaultKind::UnclosedArith => b"unclosed arithmetic expansion",
        FaultKind::BadArithClose => b"arithmetic expansion closed by one bracket",
        FaultKind::UnclosedSubst => b"unclosed command substitution",
        FaultKind::LoneBackslash => b"backslash at the end",
        FaultKind::UnclosedHere => b"unclosed here-document",
        FaultKind::BadHereWord => b"here-document word with an expansion",
        FaultKind::Unexpected => b"unexpected token",
        FaultKind::UnexpectedEnd => b"unexpected end",
        FaultKind::BadForName => b"bad name after for",
        FaultKind::BadFunctionName => b"bad function name",
        FaultKind::TooDeep => b"too many open constructs",
        FaultKind::UnclosedDollarSingle => b"unclosed dollar-single quote",
    }
}

/// The line `NAME:LINE:COL: TEXT`, with its newline. Line and column count from 1, the
/// column in bytes. The fault's own offset is not looked at.
pub fn message(
    alloc: Global,
    name: &[u8],
    line: usize,
    col: usize,
    fault: Fault,
) -> Result<Vec<u8>, AllocError>
    ensures { IfOk result (λ text. text.items ≡ message_text name.now line col fault) }
{
    let mut number = Buffer::new();
    let mut text = Vec::from_slice(alloc, name)?;
    text.push(b':')?;
    text.extend_from_slice(number.format(line).as_bytes())?;
    text.push(b':')?;
    text.extend_from_slice(number.format(col).as_bytes())?;
    text.extend_from_slice(b": ")?;
    text.extend_from_slice(text_of(fault.kind))?;
    text.push(b'\n')?;
    Ok(text)
}
