//! Writers for tests.
use std::alloc::Global;
use std::io;
use std::io::{ErrorKind, Write};

/// What a `FakeWriter` does when no more writes are to succeed.
#[derive(Clone, Copy, Debug, PartialEq, Eq)]
pub enum Refusal {
    /// A write fails with an error of this kind.
    Fails(ErrorKind),
    /// A write succeeds, but writes nothing.
    TakesNothing,
}

/// A writer that stores at most `step` bytes in each of its next `good` writes, and then refuses to write. The writer's
/// flushes fail after `good_flushes` of them.
#[derive(Drop)]
pub struct FakeWriter {
    pub taken: Vec<u8>,
    pub step: usize,
    /// How many more writes will succeed.
    pub good: usize,
    pub refusal: Refusal,
    /// How many more flushes will succeed.
    pub good_flushes: usize,
}

impl FakeWriter {
    /// Returns a writer that stores all bytes of each write, and whose flushes succeed.
    pub fn patient(alloc: Global) -> FakeWriter {
        FakeWriter::failing_after(usize::MAX, alloc)
    }

    /// Returns a writer that stores all bytes of each of its first `good` writes, and then fails with the error
    /// `Other`. The flushes of this writer succeed.
    pub fn failing_after(good: usize, alloc: Global) -> FakeWriter {
        FakeWriter {
            taken: Vec::new(alloc),
            step: usize::MAX,
            good,
            refusal: Refusal::Fails(ErrorKind::Other),
            good_flushes: usize::MAX,
        }
    }
}

impl Write for FakeWriter {
    // Stores at most `step` bytes, and returns how many. If no more writes are to succeed, stores nothing, and returns
    // 0 or an error, as `refusal` says. Returns an error if memory runs out.
    fn write(&mut self, buf: &[u8]) -> io::Result<usize> {
        if self.good == 0 {
            return match self.refusal {
                Refusal::Fails(kind) => Err(io::Error::from(kind)),
                Refusal::TakesNothing => Ok(0),
            };
        }
        self.good -= 1;
        let len = self.step.min(buf.len());
        self.taken.extend_from_slice(&buf[..len])?;
        Ok(len)
    }

    // Succeeds as long as `good_flushes` isn't 0. Then fails with the error of `refusal`, or with `Other` if that is
    // `TakesNothing`.
    fn flush(&mut self) -> io::Result<()> {
        if self.good_flushes == 0 {
            return match self.refusal {
                Refusal::Fails(kind) => Err(io::Error::from(kind)),
                Refusal::TakesNothing => Err(io::Error::from(ErrorKind::Other)),
            };
        }
        self.good_flushes -= 1;
        Ok(())
    }
}
