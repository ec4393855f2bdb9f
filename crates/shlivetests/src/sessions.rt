//! Sessions that are opened, edited and compared: what the tests of sessions share, here and in
//! `shrefusedtests`.
use shlive::{LiveError, Session};
use shprint::Layout;
use shread::Reader;
use shtext::Splice;
use shtreetests::devices::Page;
use std::alloc::{AllocError, Global};
use std::test::Fail;

/// A script of so many lines.
pub fn lines(alloc: Global, count: usize, line: &[u8]) -> Result<Vec<u8>, AllocError> {
    let mut bytes = Vec::new(alloc);
    for _ in 0..count {
        bytes.extend_from_slice(line)?;
    }
    Ok(bytes)
}

/// A session on a script, which prints with a tab for each level.
pub fn opened(alloc: Global, script: &[u8]) -> Result<Session, Fail> {
    let layout = Layout::new(0, false, false, false)?;
    Ok(Session::open(alloc, Reader::new(alloc), layout, script)?)
}

/// Makes some splices: one alone as an edit of one.
pub fn make(session: &mut Session, splices: &[Splice<'_>]) -> Result<(), LiveError> {
    if splices.is_empty() {
        return Ok(());
    }
    if let [one] = splices {
        session.edit(one.a, one.b, one.bytes)
    } else {
        session.edit_all(splices)
    }
}

/// A page that takes five bytes at a time, and fails once where it is full. Whatever
/// comes after a failure it takes.
pub fn page_of(room: usize) -> Page {
    let mut page = Page::new(room, 5);
    page.is_emptied = true;
    page
}

/// Whether two sessions answer the same.
pub fn alike(one: &Session, two: &Session) -> Result<bool, Fail> {
    alike_at_each(one, two, 1)
}

/// Whether they do, where the nodes are asked for at one offset of so many.
pub fn alike_at_each(one: &Session, two: &Session, step: usize) -> Result<bool, Fail> {
    let mut same = one.script_len() == two.script_len()
        && one.status() == two.status()
        && one.fault() == two.fault()
        && one.outline()? == two.outline()?
        && one.print()? == two.print()?;
    let mut at = 0;
    for _ in 0..=one.script_len().saturating_add(1) / step.max(1) {
        same = same && one.nodes_at(at)? == two.nodes_at(at)?;
        at = at.saturating_add(step);
    }
    Ok(same)
}
