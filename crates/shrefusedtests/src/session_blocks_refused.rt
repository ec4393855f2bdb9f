//! Each growth of an edit refused in turn where lines stand in more than one block: `growths.rt` says how.
use crate::session_refused::each_refused;
use shlivetests::sessions::lines;
use shtreetests::spliced::part;
use std::test::Fail;

/// Nodes are asked for at one offset of so many.
const STEP: usize = 499;

/// A line of a block that has no room for one more becomes two.
#[test]
fn in_a_block(rt: HostRuntime) -> Result<(), Fail> {
    let script = lines(rt.alloc(), 768, b"a\n")?;
    let splices = [part(1_200, 1_202, b"b\nc\n")];
    each_refused(&rt, rt.alloc(), &script, &splices, STEP)
}

/// The same of a block that would have too many lines, so that it is cut: there are five blocks then, where
/// there was room for four.
#[test]
fn cut(rt: HostRuntime) -> Result<(), Fail> {
    let script = lines(rt.alloc(), 1_800, b"a\n")?;
    let splices = [part(1_200, 1_202, b"b\nc\n")];
    each_refused(&rt, rt.alloc(), &script, &splices, STEP)
}

/// A line is put in between two such blocks.
#[test]
fn between(rt: HostRuntime) -> Result<(), Fail> {
    let script = lines(rt.alloc(), 1_800, b"a\n")?;
    let splices = [part(1_024, 1_024, b"b\n")];
    each_refused(&rt, rt.alloc(), &script, &splices, STEP)
}

/// A line takes the place of two blocks.
#[test]
fn whole(rt: HostRuntime) -> Result<(), Fail> {
    let script = lines(rt.alloc(), 1_800, b"a\n")?;
    let splices = [part(1_024, 3_072, b"b\n")];
    each_refused(&rt, rt.alloc(), &script, &splices, STEP)
}
