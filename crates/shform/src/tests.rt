//! What no clause says: that calls succeed where nothing fails, that a failure of a
//! device is told, and the texts.
ghost use Rattle.std.specs.Prelude.{IfSome};
ghost use Rattle.shlive.specs.Ahead.{IsOpen};

mod gathering;
mod parts;
pub(crate) mod print;
pub(crate) mod session;
mod tools;
mod words;

use shread::Edition;
use shtext::{Failed, Input, LIMIT, Output};
use shtool::check_engine;
use std::alloc::Global;
use std::io;
use std::io::{Error, Read, Write};
use std::test::Fail;

/// A reader that gives at most `step` bytes at a time, and fails at one of its reads.
#[derive(Drop)]
struct Tape<'a> {
    rest: &'a [u8],
    step: usize,
    reads: u64,
    fails_at: u64,
}

impl<'a> Tape<'a> {
    /// One that never fails.
    fn new(rest: &'a [u8], step: usize) -> Tape<'a> {
        Tape {
            rest,
            step,
            reads: 0,
            fails_at: u64::MAX,
        }
    }
}

impl<'a> Read for Tape<'a> {
    fn read(&mut self, buf: &mut [u8]) -> io::Result<usize> {
        self.reads = self.reads.wrapping_add(1);
        if self.reads == self.fails_at {
            return Err(Error::from(io::ErrorKind::Interrupted));
        }
        let count = self.step.min(buf.len()).min(self.rest.len());
        buf[..count].copy_from_slice(&self.rest[..count]);
        self.rest = &self.rest[count..];
        Ok(count)
    }
}

/// A reader of so many bytes of one kind.
#[derive(Drop)]
struct Same(u8, usize);

impl Read for Same {
    fn read(&mut self, buf: &mut [u8]) -> io::Result<usize> {
        let count = self.1.min(buf.len());
        buf[..count].fill(self.0);
        self.1 -= count;
        Ok(count)
    }
}

/// FILE over this reader, where there is one.
fn file_of<F: Read>(reader: Option<F>) -> Option<Input<F>>
    ensures { IfSome result IsOpen }
{
    match reader {
        Some(reader) => Some(Input::new(reader)),
        None => None,
    }
}

/// What a page does when it is full.
#[derive(Clone, Copy, PartialEq, Eq)]
enum WhenFull {
    Fails,
    TakesNothing,
}

/// A writer that takes so many bytes.
#[derive(Drop)]
struct Page {
    bytes: [u8; 128],
    len: usize,
    room: usize,
    when_full: WhenFull,
    can_flush: bool,
}

impl Page {
    fn new(room: usize, when_full: WhenFull) -> Page {
        Page {
            bytes: [0; 128],
            len: 0,
            room,
            when_full,
            can_flush: true,
        }
    }

    fn text(&self) -> &[u8] {
        &self.bytes[..self.len.min(128)]
    }
}

impl Write for Page {
    fn write(&mut self, buf: &[u8]) -> io::Result<usize> {
        let start = self.len.min(128);
        // Writes are short, so that the rest of a text comes in further calls.
        let count = buf.len().min(5).min(128 - start).min(self.room);
        if count == 0 && !buf.is_empty() && self.when_full == WhenFull::Fails {
            return Err(Error::from(io::ErrorKind::Other));
        }
        self.bytes[start..start + count].copy_from_slice(&buf[..count]);
        self.len = start + count;
        self.room -= count;
        Ok(count)
    }

    fn flush(&mut self) -> io::Result<()> {
        if self.can_flush {
            Ok(())
        } else {
            Err(Error::from(io::ErrorKind::Other))
        }
    }
}

/// The status of `check` on a reader over these writers, and whether telling it failed.
pub(crate) fn checked<R: Read + Drop, O: Write + Drop, E: Write + Drop>(
    alloc: Global,
    reader: R,
    output: O,
    errors: E,
) -> (u8, bool) {
    let edition = Edition::Y2017;
    let mut input = Input::new(reader);
    let mut output = Output::new(output);
    let mut errors = Output::new(errors);
    let status = check_engine(alloc, edition, "-", &mut input, &mut output, &mut errors);
    (status, errors.failed())
}

/// The status of `check` on a reader, with the page as standard error.
fn check<R: Read + Drop>(alloc: Global, reader: R, page: &mut Page) -> u8 {
    checked(alloc, reader, io::sink(), page).0
}

/// Whether `check` on a reader ends with this status and leaves this text on a page.
fn is_told<R: Read + Drop>(
    alloc: Global,
    reader: R,
    mut page: Page,
    (status, text): (u8, &[u8]),
) -> bool {
    check(alloc, reader, &mut page) == status && page.text() == text
}

/// So where the page has room for each text.
fn tells<R: Read + Drop>(alloc: Global, reader: R, verdict: (u8, &[u8])) -> bool {
    is_told(alloc, reader, Page::new(128, WhenFull::Fails), verdict)
}

#[test]
fn verdicts(rt: HostRuntime) {
    for (script, status, text) in [
        (b"".as_slice(), 0, b"".as_slice()),
        (b"a b; c & # x\n#y\n\nd", 0, b""),
        (b"#!/bin/sh\necho hi\r\n", 0, b""),
        (b"a=1 if\n", 0, b""),
        (b"in\n", 1, b"-:1:1: unexpected token\n"),
        (b"! a | b && c\n", 0, b""),
        (b"a | ! b\n", 1, b"-:1:5: unexpected token\n"),
        (b"a &&\n", 1, b"-:2:1: unexpected end\n"),
        (b";a\n", 1, b"-:1:1: unexpected token\n"),
        (b"a & ; b\n", 1, b"-:1:5: unexpected token\n"),
        (b"a ;; b\n", 1, b"-:1:3: unexpected token\n"),
        (b"a'\n", 1, b"-:1:2: unclosed single quote\n"),
        (b"a 'b\n' \\\n\"${c#'}'}\" $((1 + (2)))\n", 0, b""),
        (
            b"a \"${b:-`c`\n",
            1,
            b"-:1:4: unclosed parameter expansion\n",
        ),
        (b"a\n\nb # c |\n \t d(\n|", 1, b"-:4:6: unexpected token\n"),
    ] {
        for step in [1, 2, 99] {
            let tape = Tape::new(script, step);
            assert!(rt; tells(rt.alloc(), tape, (status, text)), "{text:?}");
        }
    }
}

#[test]
fn late_fault(rt: HostRuntime) {
    let script = Same(b'\n', 69_999).chain(b"ab)".as_slice());
    assert!(rt; tells(rt.alloc(), script, (1, b"-:70000:3: unexpected token\n")));
}

#[test]
fn limit(rt: HostRuntime) {
    assert!(rt; LIMIT == 16_777_216);
    assert!(rt; tells(rt.alloc(), Same(b'a', 16_777_216), (0, b"")));
}

#[test]
fn beyond_the_limit(rt: HostRuntime) {
    let mut page = Page::new(128, WhenFull::Fails);
    let mut input = Input::new(Same(b'a', 16_777_216 + 10_000));
    let mut output = Output::new(io::sink());
    let mut errors = Output::new(&mut page);
    let status = check_engine(
        rt.alloc(),
        Edition::Y2017,
        "-",
        &mut input,
        &mut output,
        &mut errors,
    );
    assert!(rt; status == 2 && !errors.failed());
    assert!(rt; !input.ended() && !input.failed());
    assert!(rt; page.text() == b"shform: -: too large\n".as_slice());
}

/// A script of six bytes is read in so many reads and one more, which meets the end. Each may fail.
#[test]
fn failed_reads(rt: HostRuntime) {
    for (step, reads) in [(1, 7), (4, 3), (99, 2)] {
        for fails_at in 1..9 {
            let mut tape = Tape::new(b"a\nb\n;\n", step);
            tape.fails_at = fails_at;
            let verdict = if fails_at <= reads {
                (2, b"shform: cannot read -\n".as_slice())
            } else {
                (1, b"-:3:1: unexpected token\n".as_slice())
            };
            assert!(rt; tells(rt.alloc(), tape, verdict), "{step} {fails_at}");
        }
    }
}

const TEXT: &[u8] = b"-:1:1: unexpected token\n";

/// Whether the check of a faulty script ends with this status, and leaves this on the page.
fn fault_is_told(alloc: Global, page: Page, status: u8, text: &[u8]) -> bool {
    is_told(alloc, b"in".as_slice(), page, (status, text))
}

#[test]
fn failed_writes(rt: HostRuntime) {
    for when_full in [WhenFull::Fails, WhenFull::TakesNothing] {
        for room in 0..TEXT.len() {
            let page = Page::new(room, when_full);
            assert!(rt; fault_is_told(rt.alloc(), page, 2, &TEXT[..room]), "{room}");
        }
        let page = Page::new(TEXT.len(), when_full);
        assert!(rt; fault_is_told(rt.alloc(), page, 1, TEXT));
    }
}

#[test]
fn failed_flush(rt: HostRuntime) {
    let mut page = Page::new(128, WhenFull::Fails);
    page.can_flush = false;
    assert!(rt; fault_is_told(rt.alloc(), page, 2, TEXT));
}

/// How the one call of a hiccup fails.
#[derive(Clone, Copy)]
enum Way {
    Errs(io::ErrorKind),
    /// A flush cannot: it errs.
    TakesNothing,
}

/// A writer that fails in one of its calls, writes and flushes, and works before and after it.
#[derive(Drop)]
struct Hiccup {
    bytes: [u8; 128],
    len: usize,
    /// How many bytes a write takes at most.
    step: usize,
    calls: u64,
    fails_at: u64,
    way: Way,
}

impl Hiccup {
    fn new(step: usize, fails_at: u64, way: Way) -> Hiccup {
        Hiccup {
            bytes: [0; 128],
            len: 0,
            step,
            calls: 0,
            fails_at,
            way,
        }
    }

    fn text(&self) -> &[u8] {
        &self.bytes[..self.len.min(128)]
    }

    /// Whether this call is the one that fails.
    fn fails(&mut self) -> bool {
        self.calls = self.calls.wrapping_add(1);
        self.calls == self.fails_at
    }
}

impl Write for Hiccup {
    fn write(&mut self, buf: &[u8]) -> io::Result<usize> {
        if self.fails() {
            return match self.way {
                Way::Errs(kind) => Err(Error::from(kind)),
                Way::TakesNothing => Ok(0),
            };
        }
        let start = self.len.min(128);
        let count = buf.len().min(self.step).min(128 - start);
        self.bytes[start..start + count].copy_from_slice(&buf[..count]);
        self.len = start + count;
        Ok(count)
    }

    fn flush(&mut self) -> io::Result<()> {
        if !self.fails() {
            return Ok(());
        }
        match self.way {
            Way::Errs(kind) => Err(Error::from(kind)),
            Way::TakesNothing => Err(Error::from(io::ErrorKind::Other)),
        }
    }
}

const WAYS: [Way; 3] = [
    Way::Errs(io::ErrorKind::Other),
    Way::Errs(io::ErrorKind::Interrupted),
    Way::TakesNothing,
];

/// A text that a check of `a ;;` writes: where its reader fails (at no read where this is 0), in how
/// many writes where the writer takes all, and the status.
#[derive(Clone, Copy)]
struct Told {
    fails_at: u64,
    text: &'static [u8],
    writes: u64,
    status: u8,
}

const TOLD: [Told; 2] = [
    Told {
        fails_at: 0,
        text: b"-:1:3: unexpected token\n",
        writes: 1,
        status: 1,
    },
    Told {
        fails_at: 1,
        text: b"shform: cannot read -\n",
        writes: 3,
        status: 2,
    },
];

/// The status of that check over a page as standard error, and whether it says that this failed.
fn check_over(alloc: Global, fails_at: u64, page: &mut Hiccup) -> (u8, bool) {
    let mut tape = Tape::new(b"a ;;\n", 99);
    tape.fails_at = fails_at;
    checked(alloc, tape, io::sink(), page)
}

/// Whether the status and the calls are right where the nth of so many writes and a
/// flush fails: no further one is tried then.
fn has_stopped(alloc: Global, told: Told, writes: u64, nth: u64, page: &mut Hiccup) -> bool {
    let answer = check_over(alloc, told.fails_at, page);
    if nth <= writes.wrapping_add(1) {
        answer == (2, true) && page.calls == nth
    } else {
        answer == (told.status, false) && page.calls == writes.wrapping_add(1)
    }
}

/// Whether what stands is the beginning that was taken before.
fn is_beginning(told: Told, writes: u64, nth: u64, page: &Hiccup) -> bool {
    if nth > writes {
        return page.text() == told.text;
    }
    told.text.starts_with(page.text())
        && (page.step > 1 || page.text().len() as u64 == nth.wrapping_sub(1))
}

/// The first call whose failure is told wrong.
fn wrong_hiccup(alloc: Global, told: Told, step: usize, writes: u64) -> Option<u64> {
    for way in WAYS {
        for nth in 1..writes.wrapping_add(4) {
            let mut page = Hiccup::new(step, nth, way);
            let stopped = has_stopped(alloc, told, writes, nth, &mut page);
            if !stopped || !is_beginning(told, writes, nth, &page) {
                return Some(nth);
            }
        }
    }
    None
}

/// After a write or a flush that failed no further one is tried, though it would work.
#[test]
fn hiccups(rt: HostRuntime) {
    for told in TOLD {
        let writes = told.text.len() as u64;
        assert!(rt; wrong_hiccup(rt.alloc(), told, 1, writes).is_none());
        assert!(rt; wrong_hiccup(rt.alloc(), told, 99, told.writes).is_none());
    }
}

/// An end that failed once still says so when it works again.
#[test]
fn output_that_failed(rt: HostRuntime) {
    for way in WAYS {
        let mut page = Hiccup::new(99, 2, way);
        let mut output = Output::new(&mut page);
        assert!(rt; output.write(b"a") == Ok(1) && !output.failed());
        assert!(rt; output.write(b"b") == Err(Failed) && output.failed());
        assert!(rt; output.write(b"c") == Ok(1) && output.failed());
        assert!(rt; output.flush() == Ok(()) && output.failed());
        assert!(rt; page.text() == b"ac".as_slice());
    }
}

#[test]
fn flush_that_failed(rt: HostRuntime) {
    for way in WAYS {
        let mut page = Hiccup::new(99, 1, way);
        let mut output = Output::new(&mut page);
        assert!(rt; output.flush() == Err(Failed) && output.failed());
        assert!(rt; output.flush() == Ok(()) && output.failed());
        assert!(rt; output.write(b"d") == Ok(1) && output.failed());
        assert!(rt; page.text() == b"d".as_slice());
    }
}

#[test]
fn input_that_failed(rt: HostRuntime) {
    let mut piece = [0; 4];
    let mut tape = Tape::new(b"ab", 1);
    tape.fails_at = 2;
    let mut input = Input::new(tape);
    assert!(rt; input.read(&mut piece) == Ok(1) && !input.failed());
    assert!(rt; input.read(&mut piece) == Err(Failed));
    assert!(rt; input.read(&mut piece) == Ok(1) && piece[0] == b'b');
    assert!(rt; input.failed() && !input.ended());
    assert!(rt; input.read(&mut piece) == Ok(0));
    assert!(rt; input.failed() && input.ended());
}

#[test]
fn input_that_ends(rt: HostRuntime) {
    let mut piece = [0; 4];
    let mut input = Input::new(b"abc".as_slice());
    assert!(rt; input.read(&mut piece[..0]) == Ok(0) && !input.ended());
    assert!(rt; input.read(&mut piece) == Ok(3) && !input.ended());
    assert!(rt; piece == *b"abc\0");
    assert!(rt; input.read(&mut piece) == Ok(0));
    assert!(rt; input.ended() && !input.failed());
}

#[test]
fn input_that_fails(rt: HostRuntime) {
    let mut tape = Tape::new(b"a", 1);
    tape.fails_at = 1;
    let mut input = Input::new(tape);
    assert!(rt; input.read(&mut [0; 4]) == Err(Failed));
    assert!(rt; input.failed() && !input.ended());
}

#[test]
fn output_that_is_full(rt: HostRuntime) {
    let mut page = Page::new(2, WhenFull::TakesNothing);
    let mut output = Output::new(&mut page);
    assert!(rt; output.write(b"") == Ok(0));
    assert!(rt; output.write(b"abc") == Ok(2));
    assert!(rt; output.flush() == Ok(()) && !output.failed());
    assert!(rt; output.write(b"c") == Err(Failed) && output.failed());
}
