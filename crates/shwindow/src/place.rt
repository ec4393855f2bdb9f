//! Places among lines in blocks.

/// A line among lines in blocks, by its block and where it stands there; or the place after all of them.
#[derive(Clone, Copy, Debug)]
pub(crate) struct BlockPlace {
    pub(crate) block: usize,
    pub(crate) line: usize,
}
