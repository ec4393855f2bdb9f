//! Trees as texts, by which tests compare them.
use shtree::List;
use std::alloc::Global;
use std::test::Fail;

/// A tree with all its spans, as `Debug` writes it.
pub fn shown(alloc: Global, list: &List) -> Result<String, Fail> {
    let mut text = String::new(alloc);
    write!(text, "{list:?}")?;
    Ok(text)
}
