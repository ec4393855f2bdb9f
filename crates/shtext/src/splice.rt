//! A splice.

/// Bytes that are to stand in the place of those from `a` up to `b` of a text.
#[derive(Clone, Copy, Debug)]
pub struct Splice<'a> {
    pub a: usize,
    pub b: usize,
    pub bytes: &'a [u8],
}
