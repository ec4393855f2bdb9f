//! The model of an edit. What an edited session is compared with is as good as the
//! bytes that are spliced here, so that is said by contract.
ghost use Rattle.std.specs.Prelude.{◌≡◌, IfOk};
ghost use Rattle.shtext.specs.Edit.{edited, spliced as spliced_bytes, splices_of};

use shtext::Splice;
use std::alloc::{AllocError, Global};

/// One splice of an edit: these bytes in the place of those from `a` up to `b`.
pub fn part(a: usize, b: usize, bytes: &[u8]) -> Splice<'_> {
    Splice { a, b, bytes }
}

/// The bytes with new ones in the place of those from `a` up to `b`.
pub fn spliced(
    alloc: Global,
    bytes: &[u8],
    a: usize,
    b: usize,
    new: &[u8],
) -> Result<Vec<u8>, AllocError>
    ensures { IfOk result (λ made. made.items ≡ spliced_bytes bytes.now a b new.now) }
{
    let mut made = Vec::from_slice(alloc, bytes.get(..a).unwrap_or(bytes))?;
    made.extend_from_slice(new)?;
    made.extend_from_slice(bytes.get(b..).unwrap_or(b""))?;
    Ok(made)
}

/// The bytes with splices made together. The last is made first, so that the places of those before it stay
/// what they were.
pub fn spliced_all(
    alloc: Global,
    bytes: &[u8],
    splices: &[Splice<'_>],
) -> Result<Vec<u8>, AllocError>
    ensures { IfOk result (λ made. made.items ≡ edited bytes.now (splices_of splices.now)) }
{
    let Some((first, rest)) = splices.split_first() else {
        return Vec::from_slice(alloc, bytes);
    };
    let made = spliced_all(alloc, bytes, rest)?;
    spliced(alloc, &made, first.a, first.b, first.bytes)
}
