//! A digest of all results of a job.
use std::io;
use std::io::Write;

/// What stands for all bytes and numbers that were added, in their order.
#[derive(Drop)]
pub(crate) struct Digest {
    sum: u64,
}

impl Digest {
    /// Nothing was added.
    pub(crate) fn new() -> Digest {
        Digest {
            sum: 0xcbf2_9ce4_8422_2325,
        }
    }

    /// Adds a number.
    pub(crate) fn add(&mut self, number: u64) {
        let mixed = (self.sum ^ number).wrapping_mul(0x9e37_79b9_7f4a_7c15);
        self.sum = mixed ^ (mixed >> 29);
    }

    /// Adds some bytes, and how many they are.
    pub(crate) fn add_bytes(&mut self, bytes: &[u8]) {
        let (words, rest) = bytes.as_chunks::<8>();
        for word in words {
            self.add(u64::from_le_bytes(*word));
        }
        for byte in rest {
            self.add(u64::from(*byte));
        }
        self.add(bytes.len() as u64);
    }

    /// The digest.
    pub(crate) fn sum(&self) -> u64 {
        self.sum
    }
}

impl Write for Digest {
    fn write(&mut self, buf: &[u8]) -> io::Result<usize> {
        self.add_bytes(buf);
        Ok(buf.len())
    }

    fn flush(&mut self) -> io::Result<()> {
        Ok(())
    }
}
