//! `session` over devices that give, take and fail.
use super::{Page, Same, Tape, WhenFull, file_of};
use crate::session_engine::session_engine;
use shprint::{Layout, LayoutError};
use shread::{Edition, Reader};
use shtext::{Input, Output};
use std::alloc::Global;
use std::io::{Read, Write};
use std::test::Fail;

/// The status of a session of `f` over these readers and writers. It prints with two blanks for each
/// level.
pub(crate) fn session<F: Read + Drop, R: Read + Drop, O: Write + Drop, E: Write + Drop>(
    alloc: Global,
    file: Option<F>,
    requests: R,
    replies: O,
    errors: E,
) -> Result<u8, LayoutError> {
    let layout = Layout::new(2, false, false, false)?;
    let mut requests = Input::new(requests);
    let mut replies = Output::new(replies);
    let mut errors = Output::new(errors);
    Ok(session_engine(
        alloc,
        Reader::for_edition(alloc, Edition::Y2017),
        layout,
        "f",
        &mut file_of(file),
        &mut requests,
        &mut replies,
        &mut errors,
    ))
}

/// What a session leaves: its status, and what stands on standard output and on standard error.
type Left = (u8, &'static [u8], &'static [u8]);

/// Whether a session with this FILE leaves that.
fn leaves<F: Read + Drop>(
    alloc: Global,
    file: Option<F>,
    requests: &mut Tape,
    mut errors: Page,
    left: Left,
) -> Result<bool, LayoutError> {
    let mut replies = page();
    let status = session(alloc, file, requests, &mut replies, &mut errors)?;
    Ok(status == left.0 && replies.text() == left.1 && errors.text() == left.2)
}

/// A page that takes all.
fn page() -> Page {
    Page::new(128, WhenFull::Fails)
}

#[test]
fn answers(rt: HostRuntime) -> Result<(), Fail> {
    for (script, requests, status, replies) in [
        (b"".as_slice(), b"".as_slice(), 0, b"".as_slice()),
        (b"{ a; }", b"print\n", 0, b"text 8\n{\n  a\n}\n\n"),
        (b"a\n;\n", b"fault\n", 1, b"fault 2 2 1 11\n"),
        (b"a;\n", b"edit 1 2 1\n&\nquit\nfault\n", 0, b"ok 3 0\n"),
        (b"a\n", b"fault\nfau", 2, b"none\n"),
    ] {
        for step in [1, 99] {
            let file = Some(Tape::new(script, step));
            let requests = &mut Tape::new(requests, step);
            let left = (status, replies, b"".as_slice());
            assert!(rt;
                leaves(rt.alloc(), file, requests, page(), left)?,
                "{replies:?}"
            );
        }
    }
    Ok(())
}

/// Without FILE the script is empty.
#[test]
fn no_file(rt: HostRuntime) -> Result<(), Fail> {
    let file: Option<Tape> = None;
    let requests = &mut Tape::new(b"edit 0 0 1\na\nprint\n", 99);
    let left = (0, b"ok 1 0\ntext 2\na\n\n".as_slice(), b"".as_slice());
    assert!(rt; leaves(rt.alloc(), file, requests, page(), left)?);
    Ok(())
}

/// FILE is read in one read and one more, which meets the end. Where it is given up no request is read.
#[test]
fn failed_reads(rt: HostRuntime) -> Result<(), Fail> {
    for (fails_at, left) in [
        (
            1,
            (2, b"".as_slice(), b"shform: cannot read f\n".as_slice()),
        ),
        (2, (2, b"", b"shform: cannot read f\n")),
        (3, (0, b"none\n", b"")),
    ] {
        let mut file = Tape::new(b"a\n", 99);
        file.fails_at = fails_at;
        let requests = &mut Tape::new(b"fault\n", 99);
        assert!(rt;
            leaves(rt.alloc(), Some(file), requests, page(), left)?,
            "{fails_at}"
        );
        assert!(rt; (requests.reads == 0) == (fails_at < 3), "{fails_at}");
    }
    Ok(())
}

#[test]
fn beyond_the_limit(rt: HostRuntime) -> Result<(), Fail> {
    let file = Some(Same(b'a', 16_777_216 + 1));
    let requests = &mut Tape::new(b"fault\n", 99);
    let left = (2, b"".as_slice(), b"shform: f: too large\n".as_slice());
    assert!(rt; leaves(rt.alloc(), file, requests, page(), left)?);
    assert!(rt; requests.reads == 0);
    Ok(())
}

/// Where standard error fails too, a beginning of what is told stands there.
#[test]
fn nowhere_to_tell(rt: HostRuntime) -> Result<(), Fail> {
    let told = b"shform: cannot read f\n".as_slice();
    for room in 0..told.len() {
        let mut file = Tape::new(b"a\n", 99);
        file.fails_at = 1;
        let requests = &mut Tape::new(b"fault\n", 99);
        let errors = Page::new(room, WhenFull::Fails);
        let left = (2, b"".as_slice(), &told[..room]);
        assert!(rt;
            leaves(rt.alloc(), Some(file), requests, errors, left)?,
            "{room}"
        );
    }
    Ok(())
}
