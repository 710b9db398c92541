//! What the subcommands `verify` and `tally` share: the audit at the beginning, and the write at the end.
//!
//! The journal of a class has a line for each granted event. An audit checks whether a text is the journal of a run of
//! a lab. A board is the state of a run after some events.
ghost use Rattle.std.specs.Prelude.{◌≡◌, ◌<◌, ℕ, true, length, take, IfErr, IfOk, MatchBool, OnOk, Err};
ghost use Rattle.std.specs.Io.KnownBytes.{Appends};
ghost use Rattle.mml_board.specs.Lists.{is_legal_in, world_in};
ghost use Rattle.mml_audit.specs.Audit.{audited, is_audit_memory};
ghost use Rattle.mml_audit.specs.AuditMeaning.{IsJournalOf};

use crate::judging::class_error::ClassError;
use mml_audit::{AuditFault, Audited, audit_events};
use mml_lab::Lab;
use mml_lines::put_all;
use std::alloc::Global;
use std::io::Write;

/// Audits the text `journal`, and frees it. Returns the text's events and the board that they lead to. Returns the
/// reason if the text doesn't pass the audit, or `AuditFault::Memory` if memory runs out.
pub(crate) fn audit_class(alloc: Global, lab: &Lab, journal: Vec<u8>) -> Result<Audited, AuditFault>
    ensures journal { IfOk result (λ a. IsJournalOf lab.now a.events.items journal.items) }
    ensures legal { IfOk result (λ a. is_legal_in lab.now a.events.items ≡ true) }
    ensures board { IfOk result (λ a. a.board ≡ world_in lab.now a.events.items) }
    ensures refused { IfErr result (λ why.
        MatchBool (is_audit_memory why) (Unit {0}) (audited lab.now journal.items ≡ Err why)) }
{
    audit_events(alloc, lab, &journal)
}

/// Writes the text that `verify` or `tally` has made. Returns `Write` if a write fails; then only a part from the
/// text's beginning was written, or nothing.
pub(crate) fn write_class<W: Write>(text: &[u8], writer: &mut W) -> Result<(), ClassError>
    ensures all { OnOk result (Appends (W.contents writer.old) (W.contents writer.new) text.now) }
    ensures part { IfErr result (λ error. (error ≡ ClassError.Write) × ((n : ℕ) × (n < length text.now)
        × Appends (W.contents writer.old) (W.contents writer.new) (take n text.now))) }
{
    match put_all(writer, text) {
        Ok(()) => Ok(()),
        Err(_) => Err(ClassError::Write),
    }
}
