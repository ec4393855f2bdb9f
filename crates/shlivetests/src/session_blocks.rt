//! Edits where lines stand in more than one block of held lines: at the bounds of blocks,
//! and such that fill one, empty it or take lines of some.
use crate::session_windows::is_right;
use crate::sessions::{lines, opened};
use shtreetests::spliced::part;
use shtreetests::table::{cells, counted};
use std::test::Fail;

/// Two offsets, and how many lines come between them.
const ROWS: &[u8] = br#"
("from" 1_022, "to" 1_023, "lines" 0) ("from" 1_022, "to" 1_022, "lines" 1)
("from" 1_022, "to" 1_026, "lines" 2) ("from" 1_024, "to" 1_026, "lines" 0)
("from" 0, "to" 0, "lines" 600) ("from" 2_222, "to" 2_224, "lines" 1)
("from" 1_200, "to" 2_224, "lines" 0) ("from" 2, "to" 1_024, "lines" 0)
("from" 2, "to" 2, "lines" 511) ("from" 0, "to" 1_024, "lines" 3)
("from" 1_030, "to" 1_034, "lines" 1)
"#;

#[test]
fn rows(rt: HostRuntime) -> Result<(), Fail> {
    let alloc = rt.alloc();
    let mut bytes = lines(alloc, 1_300, b"a\n")?;
    let mut session = opened(alloc, &bytes)?;
    for (at, row) in counted(alloc, ROWS, 11)?.iter().enumerate() {
        let [from, to, come] = cells::<3>(row)?;
        let new = lines(alloc, come.number, b"b\n")?;
        let splices = [part(from.number, to.number, &new)];
        assert!(rt;
            is_right(alloc, &mut session, &mut bytes, &splices, 499)?,
            "row {at}"
        );
    }
    Ok(())
}
