//! Errors that end the program early: one line on standard error and a status.
//!
//! The journal of a class has a line for each granted event, and is halted if a line couldn't be written to it. The
//! record of a class has the lines of its connections and the replies. The place of an event is its number in the
//! list of events, from 1. An audit checks whether a text is the journal of a run of a lab.
ghost use Rattle.std.specs.Prelude.{◌≡◌};
ghost use Rattle.mml_program.specs.Faults.{of_journal_file};
ghost use Rattle.mml_host_program.specs.Faults.{exit_status, of_record};

use crate::judging::RecordRefusal;
use mml_files::FileFault;
use mml_hosting::HostFault;
use mml_ids::Memory;
use mml_ports::ListenFault;
use mml_program::Fault as ProgramFault;
use mml_resuming::ResumeFault;
use thiserror::Error;

/// Why the program ended before its work was done.
#[derive(Debug, Drop, Error)]
pub enum Fault {
    /// An error that commands of `mml_program` have too. Such an error concerns the command line, the lab, the script,
    /// the journal or the output, or says that memory ran out.
    #[error("{0}")]
    Common(ProgramFault),
    /// The host can't listen on a port.
    #[error("host: cannot listen")]
    Listen,
    /// No more connections can be accepted, though the teacher hadn't said bye.
    #[error("host: cannot accept")]
    Accept,
    /// A check at the end failed: the places that were given aren't those of the events, each once.
    #[error("host: the tally does not fit")]
    Astray,
    /// There was no window for the desk's seat. This error doesn't happen: a lab has at least one session.
    #[error("host: no place for a window")]
    Place,
    /// The system allows the program too few open files for a class.
    #[error("host: not enough files can be opened")]
    FewFiles,
    /// The system allows the program too few threads for a class.
    #[error("host: not enough threads can be started")]
    FewThreads,
    /// The copy of the lab beside the journal is of another lab.
    #[error("resume: another lab")]
    AnotherLab,
    /// The record's folder can't be made, kept or continued, or an entry wasn't written whole.
    #[error("record fault")]
    Unrecorded,
    /// The record isn't one of this lab and this journal.
    #[error("verify: {0}")]
    Record(RecordRefusal),
    /// A file of the record can't be opened or read, or is too large.
    #[error("read fault: record")]
    ReadRecord,
}

impl Fault {
    /// Returns the exit status of the error: 2 if the lab is another one; 3 if the record is refused; 4 if the record
    /// can't be read, a port or the record failed, or the places that were given don't fit the events; 5 if the desk
    /// has no window, or the system allows too few files or threads. An error of `mml_program` has the same status as
    /// there.
    pub fn status(&self) -> u8
        ensures { result ≡ exit_status self.now }
    {
        match self {
            Fault::Common(fault) => fault.status(),
            Fault::AnotherLab => 2,
            Fault::Record(_) => 3,
            Fault::Listen | Fault::Accept | Fault::Astray | Fault::Unrecorded | Fault::ReadRecord =>
                4,
            Fault::Place | Fault::FewFiles | Fault::FewThreads => 5,
        }
    }
}

impl From<ProgramFault> for Fault {
    ghost use Rattle.mml_host_program.specs.declared.fault.Fault.TheVariants.{Common};

    ghost from_gives = { λ fault e. e ≡ Common fault };

    // Wraps an error of `mml_program`.
    fn from(fault: ProgramFault) -> Fault {
        Fault::Common(fault)
    }
}

impl From<ListenFault> for Fault {
    // Turns the fault of a port into the host's error: `Memory` if memory ran out, and otherwise `Listen`.
    fn from(fault: ListenFault) -> Fault {
        match fault {
            ListenFault::Refused => Fault::Listen,
            ListenFault::Memory => Fault::Common(ProgramFault::Memory),
        }
    }
}

/// Returns the host's error for the fault of a journal's file: `Memory` if memory ran out, and otherwise a journal
/// fault.
pub(crate) fn of_journal(fault: FileFault) -> Fault
    ensures { result ≡ Fault.Common (of_journal_file fault) }
{
    Fault::Common(ProgramFault::from(fault))
}

/// Returns the host's error for the fault of a record's folder, or of a file in it: `Memory` if memory ran out, and
/// otherwise `Unrecorded`.
pub(crate) fn of_record(fault: FileFault) -> Fault
    ensures { result ≡ of_record fault }
{
    match fault {
        FileFault::Refused => Fault::Unrecorded,
        FileFault::Memory => Fault::Common(ProgramFault::Memory),
    }
}

impl From<Memory> for Fault {
    // Returns the error of `mml_program` for memory that ran out.
    fn from(_memory: Memory) -> Fault
        ensures { result ≡ Fault.Common ProgramFault.Memory }
    {
        Fault::Common(ProgramFault::Memory)
    }
}

impl From<ResumeFault> for Fault {
    ghost use Rattle.mml_host_program.specs.Faults.{IsToldAs};

    ghost from_gives = { IsToldAs };

    // Turns the reason why a class wasn't resumed into the host's error. This is the audit's error if the journal was
    // refused, and `Memory` if memory ran out. It is a journal fault if the journal couldn't be cut, and otherwise the
    // error of serving the class.
    fn from(fault: ResumeFault) -> Fault {
        match fault {
            ResumeFault::Refused(why) => Fault::Common(ProgramFault::from(why)),
            ResumeFault::Memory => Fault::Common(ProgramFault::Memory),
            ResumeFault::Store => Fault::Common(ProgramFault::Journal),
            ResumeFault::Host(fault) => Fault::from(fault),
        }
    }
}

impl From<HostFault> for Fault {
    ghost use Rattle.mml_host_program.specs.Faults.{of_hosting};

    ghost from_gives = { λ fault e. e ≡ of_hosting fault };

    // Turns the reason why serving a class failed into the host's error. A class ends without the teacher's bye
    // (`Undismissed`) only if no more connections can be accepted, so this becomes `Accept`. A halted journal becomes a
    // journal fault.
    fn from(fault: HostFault) -> Fault {
        match fault {
            HostFault::Memory => Fault::Common(ProgramFault::Memory),
            HostFault::Place => Fault::Place,
            HostFault::Undismissed => Fault::Accept,
            HostFault::Astray => Fault::Astray,
            HostFault::Halted => Fault::Common(ProgramFault::Journal),
            HostFault::Write => Fault::Common(ProgramFault::Write),
        }
    }
}
