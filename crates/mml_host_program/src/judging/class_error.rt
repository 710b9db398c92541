//! Why the result of checking a class isn't written, and which error the program reports then.
//!
//! The result is what `verify` or `tally` prints about the journal and the record of a class.
ghost use Rattle.std.specs.Prelude.{◌≡◌, true, false, Ok, Err, OnOk, IfErr, IsErrAnd};
ghost use Rattle.mml_host_program.specs.Faults.{IsOfClass, IsOfRecord};

use crate::fault::Fault;
use crate::judging::record_refusal::RecordRefusal;
use mml_audit::AuditFault;
use mml_class::{ClassFault, SeatFault};
use mml_program::{Fault as ProgramFault, memory_if_lacked};

/// Why the result of checking a class wasn't written, or only in part.
pub enum ClassError {
    /// The journal doesn't pass the audit.
    Audit(AuditFault),
    /// The seats' texts aren't a record that fits the journal, or can't be read.
    Record(ClassFault),
    /// Memory ran out before anything was written.
    Memory,
    /// A write failed.
    Write,
}

/// Returns the result of a subcommand whose writing ended with `written`. Returns `Ok` if all was written. Otherwise
/// returns `Memory` if the writer ran out of memory (`lacked`), and else the program's error for the reason in
/// `written`.
pub(crate) fn result_of(written: Result<(), ClassError>, lacked: bool) -> Result<(), Fault>
    ensures ok { OnOk written (result ≡ Ok tt) }
    ensures lacked { IfErr written (λ _. lacked ≡ true →
        result ≡ Err (Fault.Common ProgramFault.Memory)) }
    ensures error { IfErr written (λ error. lacked ≡ false → IsErrAnd result (IsOfClass error)) }
{
    match written {
        Ok(()) => Ok(()),
        Err(error) => Err(memory_if_lacked(fault_of(error), lacked)),
    }
}

/// Returns the program's error for the reason why the result of checking a class wasn't written.
fn fault_of(error: ClassError) -> Fault
    ensures { IsOfClass error result }
{
    match error {
        ClassError::Audit(why) => Fault::Common(ProgramFault::from(why)),
        ClassError::Record(why) => record_fault(why),
        ClassError::Memory => Fault::Common(ProgramFault::Memory),
        ClassError::Write => Fault::Common(ProgramFault::Write),
    }
}

/// Returns the program's error for texts that aren't the record of a class, or can't be read: `Record` with the reason,
/// or `ReadRecord`. Returns `Memory` if memory ran out while they were read.
fn record_fault(why: ClassFault) -> Fault
    ensures { IsOfRecord why result }
{
    match why {
        ClassFault::Entry { seat, bad } => Fault::Record(RecordRefusal::of(seat, bad)),
        ClassFault::Outlived { seat, seen } => Fault::Record(RecordRefusal::Outlived(seat, seen)),
        ClassFault::Places(amiss) => Fault::Record(RecordRefusal::of_places(amiss)),
        ClassFault::Unread(SeatFault::Read) => Fault::ReadRecord,
        ClassFault::Unread(SeatFault::Memory) => Fault::Common(ProgramFault::Memory),
    }
}
