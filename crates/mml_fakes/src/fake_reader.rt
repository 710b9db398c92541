//! Readers for tests.
use std::io;
use std::io::{ErrorKind, Read};

/// A reader that returns at most `step` bytes in a read. After `good` more reads, each read fails with an error of
/// `kind`.
#[derive(Drop)]
pub struct FakeReader<'a> {
    /// The bytes that weren't read yet.
    pub rest: &'a [u8],
    pub step: usize,
    /// How many more reads will succeed.
    pub good: usize,
    pub kind: ErrorKind,
    /// How many reads were made, including failed ones.
    pub reads: usize,
}

impl<'a> FakeReader<'a> {
    /// Returns a reader of `rest`. Each of its first `good` reads returns one byte, or 0 bytes at the end. Each later
    /// read fails with the error `Other`.
    pub fn failing_after(good: usize, rest: &'a [u8]) -> FakeReader<'a> {
        FakeReader {
            rest,
            step: 1,
            good,
            kind: ErrorKind::Other,
            reads: 0,
        }
    }
}

impl<'a> Read for FakeReader<'a> {
    // Counts the read, copies at most `step` of the next bytes to `buf`, and returns how many were copied: 0 at the
    // end. Fails with an error of `kind` if no more reads are to succeed.
    fn read(&mut self, buf: &mut [u8]) -> io::Result<usize> {
        self.reads = self.reads.saturating_add(1);
        if self.good == 0 {
            return Err(io::Error::from(self.kind));
        }
        self.good -= 1;
        let len = self.step.min(buf.len());
        self.rest.read(&mut buf[..len])
    }
}

/// A reader that returns the first part, in one read if there is room, and then the second part, in reads of at most
/// `step` bytes.
#[derive(Drop)]
pub struct Parts<'a> {
    pub first: &'a [u8],
    pub second: &'a [u8],
    pub step: usize,
}

impl<'a> Read for Parts<'a> {
    // Copies as much of the first part as `buf` has room for. If the first part was read to its end, copies at most
    // `step` bytes of the second. Returns how many bytes were copied: 0 at the end of the second.
    fn read(&mut self, buf: &mut [u8]) -> io::Result<usize> {
        if self.first.is_empty() {
            let len = self.step.min(buf.len());
            self.second.read(&mut buf[..len])
        } else {
            self.first.read(buf)
        }
    }
}
