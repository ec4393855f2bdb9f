//! What comes to a device of the pieces that are gathered, and when.
use super::{Page, WhenFull};
use shtext::Output;
use shtool::Gathering;
use std::alloc::Global;
use std::io;
use std::io::Write;
use std::test::Fail;

/// A device that tells how many bytes each of its first four writes brought.
#[derive(Drop)]
struct Lengths {
    all: [usize; 4],
    writes: usize,
}

impl Lengths {
    fn lengths(&self) -> &[usize] {
        &self.all[..self.writes.min(4)]
    }
}

impl Write for Lengths {
    fn write(&mut self, buf: &[u8]) -> io::Result<usize> {
        let at = self.writes.min(3);
        self.all[at] = buf.len();
        self.writes = at + 1;
        Ok(buf.len())
    }

    fn flush(&mut self) -> io::Result<()> {
        Ok(())
    }
}

/// Writes pieces of these lengths, and says what writes the device had then, or when they were flushed.
fn come(alloc: Global, pieces: &[usize], flushed: bool) -> io::Result<Lengths> {
    let mut device = Lengths {
        all: [0; 4],
        writes: 0,
    };
    let mut gathering = Gathering::new(alloc, &mut device);
    for piece in pieces {
        gathering.write_all(&[b'a'; 5000][..(*piece).min(5000)])?;
    }
    if flushed {
        gathering.flush()?;
    }
    drop(gathering);
    Ok(device)
}

/// Pieces come by one write, when they are flushed. From 4,096 bytes on one before which none is held does
/// not wait.
#[test]
fn one_write(rt: HostRuntime) -> Result<(), Fail> {
    for (pieces, before, after) in [
        ([6, 1, 1].as_slice(), [].as_slice(), [8].as_slice()),
        (&[4095], &[], &[4095]),
        (&[4096], &[4096], &[4096]),
        (&[4096, 1, 1], &[4096], &[4096, 2]),
        (&[1, 4096, 1], &[], &[4098]),
        (&[3000, 3000, 5000], &[], &[11_000]),
        (&[], &[], &[]),
    ] {
        for (flushed, lengths) in [(false, before), (true, after)] {
            let device = come(rt.alloc(), pieces, flushed)?;
            assert!(rt; device.lengths() == lengths, "{pieces:?} {flushed}");
        }
    }
    Ok(())
}

/// The device is flushed too.
#[test]
fn failed_flush(rt: HostRuntime) {
    let mut page = Page::new(9, WhenFull::Fails);
    page.can_flush = false;
    let mut output = Output::new(Gathering::new(rt.alloc(), &mut page));
    let fails = output.write_whole(b"none\n").is_ok() && output.flush().is_err();
    drop(output);
    assert!(rt; fails && page.text() == b"none\n".as_slice());
}

/// Where the device takes no more, it has a beginning of what it was to have.
#[test]
fn full_device(rt: HostRuntime) {
    for when_full in [WhenFull::Fails, WhenFull::TakesNothing] {
        for room in 0..9 {
            let mut page = Page::new(room, when_full);
            let mut output = Output::new(Gathering::new(rt.alloc(), &mut page));
            let written = output.write_whole(b"ok 1").is_ok()
                && output.write_whole(b"2 0\n").is_ok();
            let flushed = output.flush().is_ok();
            drop(output);
            assert!(rt; written && flushed == (room == 8), "{room}");
            assert!(rt; page.text() == &b"ok 12 0\n"[..room.min(8)], "{room}");
        }
    }
}
