//! The window of an edit, told from its definition: the boundaries of the two scripts
//! are those of the lines that the reader reads.
use crate::window_begin::window_begin;
use shread::Reader;
use shtext::{Flat, Splice};
use shtreetests::spliced::spliced_all;
use std::alloc::Global;
use std::test::Fail;

/// The boundaries of a script: its start, and the end of each line that ended.
fn boundaries(alloc: Global, bytes: &[u8]) -> Result<Vec<usize>, Fail> {
    let source = Flat::new(bytes);
    let mut reader = Reader::new(alloc);
    let mut found = Vec::new(alloc);
    let mut at = 0;
    found.push(at)?;
    for _ in 0..bytes.len() {
        if at > bytes.len() {
            break;
        }
        let line = reader.read_line(&source, at)?;
        if !line.ended {
            break;
        }
        at = line.next;
        found.push(at)?;
    }
    Ok(found)
}

/// Where the window ends, if not with the script: at the least new boundary at or past the
/// end of the new bytes whose old place is a boundary.
fn end(old: &[usize], new: &[usize], new_end: usize, b: usize) -> Option<usize> {
    for place in new {
        let there = b.saturating_add(place.saturating_sub(new_end));
        if new_end <= *place && old.binary_search(&there).is_ok() {
            return Some(*place);
        }
    }
    None
}

/// How many bytes an edit of some splices has to read.
pub fn window(alloc: Global, bytes: &[u8], splices: &[Splice<'_>]) -> Result<usize, Fail> {
    let (Some(first), Some(last)) = (splices.first(), splices.last()) else {
        return Ok(0);
    };
    let made = spliced_all(alloc, bytes, splices)?;
    let old = boundaries(alloc, bytes)?;
    // What stands after the last splice stays.
    let stays = bytes.len().saturating_sub(last.b);
    let new_end = made.len().saturating_sub(stays);
    let end = end(&old, &boundaries(alloc, &made)?, new_end, last.b).unwrap_or(made.len());
    Ok(end.saturating_sub(window_begin(&old, first.a)))
}
