//! Each growth refused in turn, as in the tests of the reader: by the library that
//! `tests/refused-growths` loads. Without it, as in the gate, each test runs once. They catch a
//! body that gives up though there is memory, which no contract can.
use crate::tests::checked;
use crate::tests::print::print as printed;
use crate::tests::session::session as served;
use shprint::{LayoutError, message};
use shread::{Fault, FaultKind};
use shtool::Gathering;
use std::alloc::{AllocError, Global};
use std::io;
use std::io::{Read, Write};
use std::process::Abort;
use std::test::Fail;

/// A writer that takes no memory.
#[derive(Drop)]
struct Page {
    bytes: [u8; 64],
    len: usize,
}

impl Page {
    fn new() -> Page {
        Page {
            bytes: [0; 64],
            len: 0,
        }
    }

    fn text(&self) -> &[u8] {
        &self.bytes[..self.len.min(64)]
    }
}

impl Write for Page {
    fn write(&mut self, buf: &[u8]) -> io::Result<usize> {
        let start = self.len.min(64);
        let count = buf.len().min(64 - start);
        self.bytes[start..start + count].copy_from_slice(&buf[..count]);
        self.len = start + count;
        Ok(count)
    }

    fn flush(&mut self) -> io::Result<()> {
        Ok(())
    }
}

/// Asks for the refusal of the nth growth from here on, by a request that no allocator grants.
fn refuse(alloc: Global, nth: usize) {
    let _ = Vec::<u8>::with_capacity(alloc, (usize::MAX / 2).saturating_sub(nth));
}

/// Whether the refusal was met since it was asked for. None is due from then on.
fn was_refused(alloc: Global, nth: usize) -> bool {
    for _ in 0..nth {
        if Vec::<u8>::with_capacity(alloc, 1).is_err() {
            return false;
        }
    }
    true
}

/// Whether growths are refused on request at all.
fn refuses(alloc: Global) -> bool {
    refuse(alloc, 1);
    Vec::<u8>::with_capacity(alloc, 1).is_err()
}

#[test]
fn told_fault(rt: HostRuntime) -> Result<(), Fail> {
    let refuses = refuses(rt.alloc());
    let name = b"a script with a long name.sh";
    let fault = Fault {
        kind: FaultKind::Unexpected,
        at: 0,
    };
    let mut met = 0;
    for nth in 1..100 {
        refuse(rt.alloc(), nth);
        let text = message(rt.alloc(), name, 12, 345, fault);
        if !refuses || !was_refused(rt.alloc(), nth) {
            assert!(rt;
                text?.as_slice()
                    == b"a script with a long name.sh:12:345: unexpected token\n".as_slice()
            );
            break;
        }
        assert!(rt; text.err() == Some(AllocError));
        met = nth;
    }
    assert!(rt; !refuses || 0 < met && met < 99, "{met}");
    Ok(())
}

/// The status of the check of 20,001 lines with the nth growth refused, and what it
/// told; 99 if it wrote to standard output.
fn check_refused(alloc: Global, nth: usize) -> (u8, Page) {
    let script = [b'\n'; 20_000];
    let reader = script.as_slice().chain(b"a b &;\n".as_slice());
    let mut written = Page::new();
    let mut told = Page::new();
    refuse(alloc, nth);
    let (status, _) = checked(alloc, reader, &mut written, &mut told);
    (if written.len == 0 { status } else { 99 }, told)
}

/// The input is read in several growths, and its fault is told in some more.
#[test]
fn check(rt: HostRuntime) {
    let refuses = refuses(rt.alloc());
    let mut met = 0;
    for nth in 1..100 {
        let (status, told) = check_refused(rt.alloc(), nth);
        if !refuses || !was_refused(rt.alloc(), nth) {
            assert!(rt; status == 1);
            assert!(rt; told.text() == b"-:20001:6: unexpected token\n".as_slice());
            break;
        }
        assert!(rt; status == 2);
        assert!(rt; told.text() == b"shform: out of memory\n".as_slice());
        met = nth;
    }
    assert!(rt; !refuses || 0 < met && met < 99, "{met}");
}

/// The status of the check of 20,000 newlines and a script without a fault with the nth growth refused, what
/// it wrote, and what it told.
fn faultless_refused(alloc: Global, nth: usize, script: &[u8]) -> (u8, Page, Page) {
    let newlines = [b'\n'; 20_000];
    let reader = newlines.as_slice().chain(script);
    let mut written = Page::new();
    let mut told = Page::new();
    refuse(alloc, nth);
    let (status, _) = checked(alloc, reader, &mut written, &mut told);
    (status, written, told)
}

/// The same of its print.
fn print_refused(
    alloc: Global,
    nth: usize,
    script: &[u8],
) -> Result<(u8, Page, Page), LayoutError> {
    let newlines = [b'\n'; 20_000];
    let reader = newlines.as_slice().chain(script);
    let mut written = Page::new();
    let mut told = Page::new();
    refuse(alloc, nth);
    let status = printed(alloc, reader, &mut written, &mut told)?;
    Ok((status, written, told))
}

/// The status of a session on a script of one long line with the nth growth refused, and what it replied
/// and told.
fn session_refused(alloc: Global, nth: usize) -> Result<(u8, Page, Page), LayoutError> {
    let script = [b' '; 20_000];
    let file = script.as_slice().chain(b"a ;;\n".as_slice());
    let mut replies = Page::new();
    let mut told = Page::new();
    refuse(alloc, nth);
    let status = served(
        alloc,
        Some(file),
        b"fault\n".as_slice(),
        &mut replies,
        &mut told,
    )?;
    Ok((status, replies, told))
}

/// What is run with a growth refused.
#[derive(Clone, Copy)]
enum Run {
    Check(&'static [u8]),
    Print(&'static [u8]),
    Session,
}

impl Run {
    /// The status of a run with the nth growth refused, what it wrote, and what it told.
    fn refused(self, alloc: Global, nth: usize) -> Result<(u8, Page, Page), LayoutError> {
        match self {
            Run::Check(script) => Ok(faultless_refused(alloc, nth, script)),
            Run::Print(script) => print_refused(alloc, nth, script),
            Run::Session => session_refused(alloc, nth),
        }
    }
}

/// Refuses each growth of a run in turn, until it needs no more: up to then nothing is written. In the end it
/// has this status and has written this text. What a run can do without may be refused all the same.
fn refused_in_turn(
    rt: &impl Abort,
    alloc: Global,
    run: Run,
    end: u8,
    text: &[u8],
) -> Result<(), Fail> {
    let refuses = refuses(alloc);
    let mut met = 0;
    for nth in 1..100 {
        let (status, written, told) = run.refused(alloc, nth)?;
        let is_met = refuses && was_refused(alloc, nth);
        if status == end {
            assert!(rt; told.text().is_empty());
            assert!(rt; written.text() == text);
        } else {
            assert!(rt; is_met && status == 2 && written.text().is_empty());
            assert!(rt; told.text() == b"shform: out of memory\n".as_slice());
            met = nth;
        }
        if !is_met {
            break;
        }
    }
    assert!(rt; !refuses || 0 < met && met < 99, "{met}");
    Ok(())
}

/// The input is read in several growths, its tree in some, and it is printed in some more. Room for the text
/// before it is printed can be done without.
#[test]
fn print(rt: HostRuntime) -> Result<(), Fail> {
    let run = Run::Print(b"{ if a; then b; fi; } # c\n");
    let text = b"{\n\tif a; then\n\t\tb\n\tfi\n} # c\n".as_slice();
    refused_in_turn(&rt, rt.alloc(), run, 0, text)
}

/// Scripts with here-documents, with a `case`, with a loop and with a function, checked and printed.
#[test]
fn scripts(rt: HostRuntime) -> Result<(), Fail> {
    for (script, text) in [
        (
            b"cat <<A <<'B' && c\n1\nA\n2\nB\n".as_slice(),
            b"cat <<A <<'B' && c\n1\nA\n2\nB\n".as_slice(),
        ),
        (
            b"case $1 in # k\n-h|--help) usage;;\n(*) ;; # rest\nesac\n",
            b"case $1 in\n# k\n-h | --help)\n\tusage\n\t;;\n*) ;;\n# rest\nesac\n",
        ),
        (
            b"for i in a \\\n  b # n\ndo echo \"$i\"; done >f\n",
            b"for i in a \\\n\tb; do\n\t# n\n\techo \"$i\"\ndone >f\n",
        ),
        (b"f() { echo $(a | b); }\n", b"f() {\n\techo $(a | b)\n}\n"),
    ] {
        refused_in_turn(&rt, rt.alloc(), Run::Check(script), 0, b"")?;
        refused_in_turn(&rt, rt.alloc(), Run::Print(script), 0, text)?;
    }
    Ok(())
}

/// FILE is read in several growths, and opened in some more.
#[test]
fn session(rt: HostRuntime) -> Result<(), Fail> {
    let text = b"fault 20002 1 20003 11\n".as_slice();
    refused_in_turn(&rt, rt.alloc(), Run::Session, 1, text)
}

/// What stands on a page when pieces were gathered for it with the nth growth refused.
fn gathered_refused(alloc: Global, nth: usize) -> io::Result<Page> {
    let mut page = Page::new();
    let mut gathering = Gathering::new(alloc, &mut page);
    refuse(alloc, nth);
    for piece in [b"ok ".as_slice(), b"16777216", b" ", b"0", b"\n"] {
        gathering.write_all(piece)?;
    }
    gathering.flush()?;
    drop(gathering);
    Ok(page)
}

/// Pieces for which there is no memory are written as they come.
#[test]
fn gathered(rt: HostRuntime) -> Result<(), Fail> {
    let refuses = refuses(rt.alloc());
    let mut met = 0;
    for nth in 1..100 {
        let page = gathered_refused(rt.alloc(), nth)?;
        assert!(rt; page.text() == b"ok 16777216 0\n".as_slice());
        if !refuses || !was_refused(rt.alloc(), nth) {
            break;
        }
        met = nth;
    }
    assert!(rt; !refuses || 0 < met && met < 99, "{met}");
    Ok(())
}
