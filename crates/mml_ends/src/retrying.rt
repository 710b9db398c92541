//! Readers and writers that retry a call if a signal interrupts it.
ghost use Rattle.std.specs.Prelude.{◌≡◌, ◌≢◌, ◌↔◌, ◌⊎◌, ◌<◌, take, length, false, IsTrue, IfOk, IfErr, IsErrAnd, OnErr};
ghost use Rattle.std.specs.Io.{ReadsAtMost, WritesAtMost};
ghost use Rattle.std.specs.Io.KnownBytes.{Appends, Consumes, IsAtEnd, Keeps, ReadConsumes, WriteAppends};
ghost use Rattle.std.specs.IoError.{error_kind};

use std::io;
use std::io::{Error, ErrorKind, Read, Write};

/// A reader or a writer that retries if a signal interrupts a read or a write.
#[derive(Drop)]
pub struct Retrying<T: Drop> {
    pub inner: T,
    /// Whether a read or a write has failed because memory ran out.
    pub lacked_memory: bool,
}

impl<T: Drop> Retrying<T> {
    /// Wraps a reader or a writer. `lacked_memory` is false at first.
    pub fn new(inner: T) -> Retrying<T>
        ensures inner { result.inner ≡ inner }
        ensures lacked_memory { result.lacked_memory ≡ false }
    {
        Retrying {
            inner,
            lacked_memory: false,
        }
    }
}

impl<R: Read + Drop> Read for Retrying<R> {
    ghost remaining = { λ s. R.remaining s.inner };

    // Reads into `buf`, and returns how many bytes were read. Retries as long as a signal interrupts the read. Returns
    // the error of a read that fails for another reason, and `TimedOut` after 2^64 - 1 interruptions. Sets
    // `lacked_memory` if the read failed because memory ran out.
    fn read(&mut self, buf: &mut [u8]) -> io::Result<usize>
        ensures bound { ReadsAtMost result buf.new }
        ensures bytes { ReadConsumes (R.remaining self.old.inner) (R.remaining self.new.inner)
            result buf.new }
        ensures retried { IfErr result (λ e. error_kind e ≢ ErrorKind.Interrupted) }
        ensures remembered { IsTrue self.new.lacked_memory ↔ (IsTrue self.old.lacked_memory
            ⊎ IsErrAnd result (λ e. error_kind e ≡ ErrorKind.OutOfMemory)) }
    {
        for _ in 0..u64::MAX {
            let got = self.inner.read(buf);
            if !failed_by(&got, ErrorKind::Interrupted) {
                self.lacked_memory = self.lacked_memory || failed_by(&got, ErrorKind::OutOfMemory);
                return got;
            }
        }
        Err(Error::from(ErrorKind::TimedOut))
    }
}

impl<W: Write + Drop> Write for Retrying<W> {
    ghost contents = { λ s. W.contents s.inner };

    // Writes bytes of `buf`, and returns how many were written. Retries as long as a signal interrupts the write.
    // Returns the error of a write that fails for another reason, and `TimedOut` after 2^64 - 1 interruptions. Sets
    // `lacked_memory` if the write failed because memory ran out.
    fn write(&mut self, buf: &[u8]) -> io::Result<usize>
        ensures bound { WritesAtMost result buf.now }
        ensures bytes { WriteAppends (W.contents self.old.inner) (W.contents self.new.inner)
            result buf.now }
        ensures retried { IfErr result (λ e. error_kind e ≢ ErrorKind.Interrupted) }
        ensures remembered { IsTrue self.new.lacked_memory ↔ (IsTrue self.old.lacked_memory
            ⊎ IsErrAnd result (λ e. error_kind e ≡ ErrorKind.OutOfMemory)) }
    {
        for _ in 0..u64::MAX {
            let put = self.inner.write(buf);
            if !failed_by(&put, ErrorKind::Interrupted) {
                self.lacked_memory = self.lacked_memory || failed_by(&put, ErrorKind::OutOfMemory);
                return put;
            }
        }
        Err(Error::from(ErrorKind::TimedOut))
    }

    // Flushes once, and doesn't retry if a signal interrupts the flush. Doesn't change `lacked_memory`. Returns the
    // error of a flush that fails.
    fn flush(&mut self) -> io::Result<()>
        ensures { Keeps (W.contents self.old.inner) (W.contents self.new.inner) }
    {
        self.inner.flush()
    }
}

/// Returns whether a read or a write failed with an error of the kind `kind`.
fn failed_by(done: &io::Result<usize>, kind: ErrorKind) -> bool
    ensures { IsTrue result ↔ IsErrAnd done.now (λ e. error_kind e ≡ kind) }
{
    match done {
        Ok(_) => false,
        Err(error) => error.kind() == kind,
    }
}
