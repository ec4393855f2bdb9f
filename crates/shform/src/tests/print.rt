//! `print` over devices that give, take and fail.
use super::{Hiccup, Page, Same, Tape, WAYS, WhenFull};
use shprint::{Layout, LayoutError};
use shread::Edition;
use shtext::{Input, Output};
use shtool::print_engine;
use std::alloc::Global;
use std::io::{Read, Write};
use std::test::Fail;

/// The status of `print` on a reader, over these writers.
pub(crate) fn print<R: Read + Drop, O: Write + Drop, E: Write + Drop>(
    alloc: Global,
    reader: R,
    output: O,
    errors: E,
) -> Result<u8, LayoutError> {
    let layout = Layout::new(0, false, false, false)?;
    let mut input = Input::new(reader);
    let mut output = Output::new(output);
    let mut errors = Output::new(errors);
    Ok(print_engine(
        alloc,
        Edition::Y2017,
        &layout,
        "-",
        &mut input,
        &mut output,
        &mut errors,
    ))
}

/// What a run leaves: its status, and what stands on standard output and on standard error.
type Left = (u8, &'static [u8], &'static [u8]);

/// Whether a print with these pages leaves that.
fn leaves<R: Read + Drop>(
    alloc: Global,
    reader: R,
    mut pages: (Page, Page),
    left: Left,
) -> Result<bool, LayoutError> {
    let status = print(alloc, reader, &mut pages.0, &mut pages.1)?;
    Ok(status == left.0 && pages.0.text() == left.1 && pages.1.text() == left.2)
}

/// A page that takes all.
fn page() -> Page {
    Page::new(128, WhenFull::Fails)
}

#[test]
fn texts(rt: HostRuntime) -> Result<(), Fail> {
    for (script, status, text, told) in [
        (b"".as_slice(), 0, b"".as_slice(), b"".as_slice()),
        (b"\n\n", 0, b"", b""),
        (b"if a;then b;fi", 0, b"if a; then\n\tb\nfi\n", b""),
        (b"#!/bin/sh\necho hi\r\n", 0, b"#!/bin/sh\necho hi\r\n", b""),
        (b"echo 'a", 1, b"", b"-:1:6: unclosed single quote\n"),
        (b"a\nb\n;\n", 1, b"", b"-:3:1: unexpected token\n"),
        (b"a &&\n", 1, b"", b"-:2:1: unexpected end\n"),
    ] {
        for step in [1, 2, 99] {
            let tape = Tape::new(script, step);
            let left = (status, text, told);
            assert!(rt;
                leaves(rt.alloc(), tape, (page(), page()), left)?,
                "{told:?}"
            );
        }
    }
    Ok(())
}

#[test]
fn beyond_the_limit(rt: HostRuntime) -> Result<(), Fail> {
    let left = (2, b"".as_slice(), b"shform: -: too large\n".as_slice());
    let script = Same(b'a', 16_777_216 + 1);
    assert!(rt; leaves(rt.alloc(), script, (page(), page()), left)?);
    Ok(())
}

const SCRIPT: &[u8] = b"if a;then b;fi";

const TEXT: &[u8] = b"if a; then\n\tb\nfi\n";

const CANNOT_WRITE: &[u8] = b"shform: cannot write\n";

/// The script is read in one read and one more, which meets the end.
#[test]
fn failed_reads(rt: HostRuntime) -> Result<(), Fail> {
    for fails_at in [1, 2] {
        let mut tape = Tape::new(SCRIPT, 99);
        tape.fails_at = fails_at;
        let left = (2, b"".as_slice(), b"shform: cannot read -\n".as_slice());
        assert!(rt; leaves(rt.alloc(), tape, (page(), page()), left)?);
    }
    Ok(())
}

#[test]
fn failed_writes(rt: HostRuntime) -> Result<(), Fail> {
    for when_full in [WhenFull::Fails, WhenFull::TakesNothing] {
        for room in 0..TEXT.len() {
            let pages = (Page::new(room, when_full), page());
            let left = (2, &TEXT[..room], CANNOT_WRITE);
            assert!(rt; leaves(rt.alloc(), SCRIPT, pages, left)?, "{room}");
        }
        let pages = (Page::new(TEXT.len(), when_full), page());
        assert!(rt; leaves(rt.alloc(), SCRIPT, pages, (0, TEXT, b""))?);
    }
    Ok(())
}

#[test]
fn failed_flush(rt: HostRuntime) -> Result<(), Fail> {
    let mut output = page();
    output.can_flush = false;
    let left = (2, TEXT, CANNOT_WRITE);
    assert!(rt; leaves(rt.alloc(), SCRIPT, (output, page()), left)?);
    Ok(())
}

/// Where standard error fails too, a beginning of what is told stands there.
#[test]
fn nowhere_to_tell(rt: HostRuntime) -> Result<(), Fail> {
    for room in 0..CANNOT_WRITE.len() {
        let pages = (
            Page::new(3, WhenFull::Fails),
            Page::new(room, WhenFull::Fails),
        );
        let left = (2, b"if ".as_slice(), &CANNOT_WRITE[..room]);
        assert!(rt; leaves(rt.alloc(), SCRIPT, pages, left)?, "{room}");
    }
    Ok(())
}

/// After a write or a flush that failed no further one is tried, though it would work.
#[test]
fn hiccups(rt: HostRuntime) -> Result<(), Fail> {
    // The text is written a byte at a time, and flushed.
    let calls = TEXT.len() as u64 + 1;
    for way in WAYS {
        for nth in 1..calls + 1 {
            let mut output = Hiccup::new(1, nth, way);
            let mut errors = page();
            let status = print(rt.alloc(), SCRIPT, &mut output, &mut errors)?;
            let written = (nth as usize - 1).min(TEXT.len());
            assert!(rt; status == 2 && output.calls == nth, "{nth}");
            assert!(rt; output.text() == &TEXT[..written], "{nth}");
            assert!(rt; errors.text() == CANNOT_WRITE);
        }
    }
    Ok(())
}

/// A faulty script leaves standard output alone, whatever becomes of standard error.
#[test]
fn failed_errors(rt: HostRuntime) -> Result<(), Fail> {
    let told = b"-:1:6: unclosed single quote\n".as_slice();
    for room in 0..told.len() {
        let pages = (page(), Page::new(room, WhenFull::Fails));
        let left = (2, b"".as_slice(), &told[..room]);
        assert!(rt;
            leaves(rt.alloc(), b"echo 'a".as_slice(), pages, left)?,
            "{room}"
        );
    }
    Ok(())
}
