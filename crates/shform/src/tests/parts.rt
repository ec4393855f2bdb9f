//! Scripts longer than a piece, whose lines are passed as they are read: where a fault
//! stands is told as if all were held.
use crate::tests::print::print;
use crate::tests::{Page, WhenFull, tells};
use std::io;
use std::io::{Error, Read, Write};
use std::test::Fail;

/// A reader of a text so many times over, which gives at most `step` bytes at a time.
#[derive(Drop)]
struct Again<'a> {
    text: &'a [u8],
    at: usize,
    times: usize,
    step: usize,
}

impl<'a> Again<'a> {
    fn new(text: &'a [u8], times: usize, step: usize) -> Again<'a> {
        Again {
            text,
            at: 0,
            times,
            step,
        }
    }
}

impl<'a> Read for Again<'a> {
    fn read(&mut self, buf: &mut [u8]) -> io::Result<usize> {
        if self.times == 0 {
            return Ok(0);
        }
        let Some(left) = self.text.get(self.at..self.text.len()) else {
            return Ok(0);
        };
        let count = self.step.min(buf.len()).min(left.len());
        buf[..count].copy_from_slice(&left[..count]);
        self.at += count;
        if self.at == self.text.len() {
            self.at = 0;
            self.times -= 1;
        }
        Ok(count)
    }
}

/// A writer that takes one text over and over, and nothing else.
#[derive(Drop)]
struct Repeats<'a> {
    text: &'a [u8],
    at: usize,
    times: usize,
}

impl<'a> Write for Repeats<'a> {
    fn write(&mut self, buf: &[u8]) -> io::Result<usize> {
        let rest = self.text.get(self.at..self.text.len()).unwrap_or(&[]);
        let count = rest.len().min(buf.len());
        if buf[..count] != rest[..count] {
            return Err(Error::from(io::ErrorKind::Other));
        }
        self.at = self.at.wrapping_add(count);
        if self.at == self.text.len() {
            self.at = 0;
            self.times = self.times.wrapping_add(1);
        }
        Ok(count)
    }

    fn flush(&mut self) -> io::Result<()> {
        Ok(())
    }
}

/// What is printed of a script that is longer than a piece: some text over and over, and a part of it.
#[test]
fn long_texts(rt: HostRuntime) -> Result<(), Fail> {
    for (line, printed, times, rest) in [
        (
            b"echo  a   b\n".as_slice(),
            b"echo a b\n".as_slice(),
            20_000,
            0,
        ),
        (b"a\n\n\n", b"a\n\n", 19_999, 2),
        (b"if a;then\nb;fi\n", b"if a; then\n\tb\nfi\n", 20_000, 0),
        (b"cat <<E;b\nx\nE\n", b"cat <<E\nx\nE\nb\n", 20_000, 0),
        (b"a \\\n  b # c\n", b"a \\\n\tb # c\n", 20_000, 0),
    ] {
        for step in [7, 65_536] {
            let mut output = Repeats {
                text: printed,
                at: 0,
                times: 0,
            };
            let reader = Again::new(line, 20_000, step);
            let status = print(
                rt.alloc(),
                reader,
                &mut output,
                Page::new(128, WhenFull::Fails),
            )?;
            assert!(rt;
                status == 0 && output.times == times && output.at == rest,
                "{printed:?}"
            );
        }
    }
    Ok(())
}

/// A fault after much that is printed by then: nothing of it is written.
#[test]
fn late_fault(rt: HostRuntime) -> Result<(), Fail> {
    let mut output = Page::new(128, WhenFull::Fails);
    let mut errors = Page::new(128, WhenFull::Fails);
    let reader = Again::new(b"a\n\n", 40_000, 65_536).chain(b"b\nc ;;\n".as_slice());
    let status = print(rt.alloc(), reader, &mut output, &mut errors)?;
    assert!(rt; status == 1 && output.text().is_empty());
    assert!(rt; errors.text() == b"-:80002:3: unexpected token\n".as_slice());
    Ok(())
}

#[test]
fn long_scripts(rt: HostRuntime) {
    for (line, times, last, status, text) in [
        (
            b"echo a b\n".as_slice(),
            30_000,
            b"c".as_slice(),
            0,
            b"".as_slice(),
        ),
        (
            b"echo a b\n",
            30_000,
            b"c\n  d |;\n",
            1,
            b"-:30002:6: unexpected token\n",
        ),
        (
            b"echo 'a\nb'\n",
            30_000,
            b"\n'",
            1,
            b"-:60002:1: unclosed single quote\n",
        ),
        (
            b"a \\\n  b\n",
            30_000,
            b"(\n",
            1,
            b"-:60002:1: unexpected end\n",
        ),
        (b"cat <<E\nx\nE\n", 30_000, b"cat <<E\nE", 0, b""),
        (
            b"cat <<E\nx\nE\n",
            30_000,
            b"cat <<E\nx",
            1,
            b"-:90001:5: unclosed here-document\n",
        ),
        (
            b"if a; then\n  b\nfi\n",
            30_000,
            b"fi\n",
            1,
            b"-:90001:1: unexpected token\n",
        ),
    ] {
        for step in [7, 65_536] {
            let reader = Again::new(line, times, step).chain(last);
            assert!(rt; tells(rt.alloc(), reader, (status, text)), "{text:?}");
        }
    }
}

/// One line, or the text of one here-document, that goes on for longer than what is looked at.
#[test]
fn long_lines(rt: HostRuntime) {
    for (first, part, times, last, status, text) in [
        (
            b"a".as_slice(),
            b" b".as_slice(),
            100_000,
            b"\nc )\n".as_slice(),
            1,
            b"-:2:3: unexpected token\n".as_slice(),
        ),
        (
            b"a\n'",
            b"b\n",
            100_000,
            b"'\n;\n",
            1,
            b"-:100003:1: unexpected token\n",
        ),
        (b"a\ncat <<E;", b"\nb", 100_000, b"\nE\n", 0, b""),
        (
            b"a\ncat <<E\n",
            b"b\n",
            100_000,
            b"E\n)",
            1,
            b"-:100004:1: unexpected token\n",
        ),
        (b"a\n{\n", b"b\n", 100_000, b"}\n", 0, b""),
        (
            b"a\n{\n",
            b"b\n",
            100_000,
            b"",
            1,
            b"-:100003:1: unexpected end\n",
        ),
    ] {
        let reader = first.chain(Again::new(part, times, 65_536)).chain(last);
        assert!(rt; tells(rt.alloc(), reader, (status, text)), "{text:?}");
    }
}

/// A fault that is met early is told when all was read.
#[test]
fn early_fault(rt: HostRuntime) {
    let reader = b"a\n;\n"
        .as_slice()
        .chain(Again::new(b"b\n", 100_000, 65_536));
    assert!(rt; tells(rt.alloc(), reader, (1, b"-:2:1: unexpected token\n")));
}
