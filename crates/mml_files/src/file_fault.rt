//! Why a file of a run couldn't be opened or used.
ghost use Rattle.std.specs.Prelude.{◌≡◌, ◌↔◌, ◌≢◌};
ghost use Rattle.std.specs.IoError.{error_kind};
ghost use Rattle.mml_files.specs.declared.file_fault.FileFault.TheVariants.{Refused, Memory};

use std::alloc::{AllocError, AllocFailed};
use std::fs::TryLockError;
use std::io::{Error as IoError, ErrorKind};

/// Why a file of a run, a journal or a record, couldn't be opened or used.
#[derive(Clone, Copy, PartialEq, Eq)]
pub enum FileFault {
    /// The file can't be opened, made, locked, kept under another name, read or written. Or another program writes it,
    /// or it is also used as another file of the run.
    Refused,
    /// Memory ran out.
    Memory,
}

impl From<IoError> for FileFault {
    // Turns the system's error into a fault: `Memory` if memory ran out, and otherwise `Refused`.
    fn from(error: IoError) -> FileFault
        ensures memory { error_kind error ≡ ErrorKind.OutOfMemory → result ≡ Memory }
        ensures refused { error_kind error ≢ ErrorKind.OutOfMemory → result ≡ Refused }
    {
        if error.kind() == ErrorKind::OutOfMemory {
            FileFault::Memory
        } else {
            FileFault::Refused
        }
    }
}

impl From<AllocError> for FileFault {
    // Turns a failed allocation into `Memory`, so that `?` returns it.
    fn from(_error: AllocError) -> FileFault
        ensures { result ≡ Memory }
    {
        FileFault::Memory
    }
}

impl<T: Drop> From<AllocFailed<T>> for FileFault {
    // Turns a failed allocation into `Memory`, so that `?` returns it, and drops the value that the error carries.
    fn from(_error: AllocFailed<T>) -> FileFault
        ensures { result ≡ Memory }
    {
        FileFault::Memory
    }
}

impl From<TryLockError> for FileFault {
    // Turns the error of locking a file into a fault: `Memory` if memory ran out, and otherwise `Refused`, also if
    // another program holds the lock.
    fn from(error: TryLockError) -> FileFault {
        match error {
            TryLockError::Error(error) => FileFault::from(error),
            TryLockError::WouldBlock => FileFault::Refused,
        }
    }
}
