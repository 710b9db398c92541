//! Errors that end the program early: one line on standard error and a status.
//!
//! The place of an event is its number in the list of events, from 1. An audit checks whether a text is the journal
//! of a run of a lab. The journal is halted if a line couldn't be written to it.
ghost use Rattle.std.specs.Prelude.{◌≡◌, ◌≢◌, ◌⊎◌, true, false};
ghost use Rattle.std.specs.IoError.{error_kind};
ghost use Rattle.mml_program.specs.declared.fault.Fault.TheVariants.{Memory};
ghost use Rattle.mml_program.specs.Faults.{status_of};

use crate::lab_refusal::{AuditRefusal, LabRefusal};
use mml_audit::AuditFault;
use mml_files::FileFault;
use mml_hall::ScriptFault;
use mml_lab::LabFault;
use mml_serving::ServeFault;
use std::alloc::AllocError;
use std::io::{Error as IoError, ErrorKind};
use thiserror::Error;

/// Why the program ended before its work was done.
#[derive(Debug, Drop, PartialEq, Eq, Error)]
pub enum Fault {
    /// The command line isn't understood.
    #[error("command line: not understood")]
    CommandLine,
    /// The lab file doesn't describe a lab.
    #[error("lab: {0}")]
    Lab(LabRefusal),
    /// The line of the script with this number, counted from 1, is no script line.
    #[error("script: line {0}: bad line")]
    BadLine(u64),
    /// The text is no journal of the lab.
    #[error("audit: {0}")]
    Audit(AuditRefusal),
    /// The lab file can't be opened or read, or is too large.
    #[error("read fault: lab")]
    ReadLab,
    /// The script can't be opened or read, or is too large.
    #[error("read fault: script")]
    ReadScript,
    /// The journal can't be opened or read, or is too large.
    #[error("read fault: journal")]
    ReadJournal,
    /// More connections were asked for than the lab has sessions.
    #[error("serve: more connections than sessions")]
    TooManyConnections,
    /// The port can't be listened on.
    #[error("serve: cannot listen")]
    Listen,
    /// A connection couldn't be accepted.
    #[error("serve: cannot accept")]
    Accept,
    /// A check at the end failed: the places that were given aren't those of the events, each once.
    #[error("serve: the tally does not fit")]
    Astray,
    /// There was no reader's slot for a window. This error doesn't happen: the slots are reserved when a house is
    /// started.
    #[error("serve: no place for a window")]
    Place,
    /// The journal's file can't be made, locked or kept, or a line of the journal wasn't written whole.
    #[error("journal fault")]
    Journal,
    /// Not everything could be written to standard output.
    #[error("write fault")]
    Write,
    /// Memory ran out, anywhere.
    #[error("out of memory")]
    Memory,
}

impl Fault {
    /// Returns the exit status of the error: 1 if the command line isn't understood; 2 if the lab, the script or the
    /// number of connections is refused; 3 if an audit fails; 4 if a read, a write, the journal or the network failed,
    /// or the places that were given don't fit the events; 5 if memory ran out, or a slot for a reader of the events is
    /// missing.
    pub fn status(&self) -> u8
        ensures { result ≡ status_of self.now }
    {
        match self {
            Fault::CommandLine => 1,
            Fault::Lab(_) | Fault::BadLine(_) | Fault::TooManyConnections => 2,
            Fault::Audit(_) => 3,
            Fault::ReadLab
            | Fault::ReadScript
            | Fault::ReadJournal
            | Fault::Listen
            | Fault::Accept
            | Fault::Astray
            | Fault::Journal
            | Fault::Write => 4,
            Fault::Place | Fault::Memory => 5,
        }
    }
}

/// Returns the error `Memory` if a reader or writer ran out of memory (`lacked`), and otherwise `fault`. Without this,
/// the error may say only that a read or a write failed. `F` is `Fault` itself, or an error type that wraps it.
pub fn memory_if_lacked<F: From<Fault> + Drop>(fault: F, lacked: bool) -> F
    ensures memory { lacked ≡ true → F.from_gives Memory result }
    ensures other { lacked ≡ false → result ≡ fault }
{
    if lacked {
        F::from(Fault::Memory)
    } else {
        fault
    }
}

/// Returns the error `Memory` if `error`, the system's error of a call, says that memory ran out, and otherwise
/// `other`.
pub fn memory_or(error: &IoError, other: Fault) -> Fault
    ensures memory { error_kind error.now ≡ ErrorKind.OutOfMemory → result ≡ Fault.Memory }
    ensures either { (result ≡ other) ⊎ (result ≡ Fault.Memory) }
    ensures other { error_kind error.now ≢ ErrorKind.OutOfMemory → result ≡ other }
{
    if error.kind() == ErrorKind::OutOfMemory {
        Fault::Memory
    } else {
        other
    }
}

impl From<AllocError> for Fault {
    ghost from_gives = { λ _ e. e ≡ Memory };

    // Turns a failed allocation into the program's error `Memory`.
    fn from(_error: AllocError) -> Fault {
        Fault::Memory
    }
}

impl From<FileFault> for Fault {
    ghost use Rattle.mml_program.specs.Faults.{of_journal_file};

    ghost from_gives = { λ fault e. e ≡ of_journal_file fault };

    // Turns the error of a journal's file into the program's error: `Journal`, or `Memory` if memory ran out.
    fn from(fault: FileFault) -> Fault {
        match fault {
            FileFault::Refused => Fault::Journal,
            FileFault::Memory => Fault::Memory,
        }
    }
}

impl From<LabFault> for Fault {
    // Turns the error of a lab file into the program's error: `Lab` with the reason why the file is refused, or
    // `Memory` if memory ran out.
    fn from(fault: LabFault) -> Fault {
        match LabRefusal::of(fault) {
            Some(refusal) => Fault::Lab(refusal),
            None => Fault::Memory,
        }
    }
}

impl From<AuditFault> for Fault {
    ghost use Rattle.mml_program.specs.Faults.{IsAuditError};

    ghost from_gives = { IsAuditError };

    // Turns the error of a journal's text into the program's error: `Audit` with the reason why the text is refused, or
    // `Memory` if memory ran out.
    fn from(fault: AuditFault) -> Fault {
        match AuditRefusal::of(fault) {
            Some(refusal) => Fault::Audit(refusal),
            None => Fault::Memory,
        }
    }
}

impl From<ScriptFault> for Fault {
    ghost use Rattle.mml_program.specs.Faults.{of_script};

    ghost from_gives = { λ fault e. e ≡ of_script fault };

    // Turns the reason why a script ended early into the program's error. For a failed write, the number of bytes that
    // were written isn't kept.
    fn from(fault: ScriptFault) -> Fault {
        match fault {
            ScriptFault::BadLine(line) => Fault::BadLine(line),
            ScriptFault::Read => Fault::ReadScript,
            ScriptFault::Write { .. } => Fault::Write,
            ScriptFault::Memory => Fault::Memory,
        }
    }
}

impl From<ServeFault> for Fault {
    ghost use Rattle.mml_program.specs.Faults.{of_serving};

    ghost from_gives = { λ fault e. e ≡ of_serving fault };

    // Turns the reason why a server failed into the program's error. If the journal was halted, this is `Journal`.
    fn from(fault: ServeFault) -> Fault {
        match fault {
            ServeFault::Memory => Fault::Memory,
            ServeFault::Place => Fault::Place,
            ServeFault::Accept => Fault::Accept,
            ServeFault::Astray => Fault::Astray,
            ServeFault::Halted => Fault::Journal,
            ServeFault::Write => Fault::Write,
        }
    }
}
