//! The check of a class's record against its journal, for the subcommands `verify` and `tally`.
//!
//! The record of a class has a text for each seat, with the lines that were answered there and their replies. A seat
//! served one connection after another. The journal has a line for each granted event, and an audit checks it. In
//! contracts, `start` is the text with the number of events before the record, and `texts` has the text of each seat.
//! `seats` is the source from which these texts are read. The findings of a record are its summary. A board is the
//! state of a run after some events. If `is_tallied` is set, the tally of journal and record is written, and
//! otherwise the summary.
ghost use Rattle.std.specs.Prelude.{◌≡◌, ◌++◌, ℕ, List, true, IfErr, IfOk, OnOk};
ghost use Rattle.mml_board.specs.Lists.{is_legal_in, world_in};
ghost use Rattle.mml_audit.specs.AuditMeaning.{IsJournalOf};
ghost use Rattle.mml_class.specs.Classes.{Tell};
ghost use Rattle.mml_host_program.specs.Judging.{IsJudged, IsUntold, IsUnwritten, IsWritten, judged_text};

use crate::judging::class_error::ClassError;
use crate::judging::class_writing::{audit_class, write_class};
use crate::judging::recorded::put_lines;
use crate::judging::verifying::put_verified;
use mml_board::{Board, Event};
use mml_class::{ClassRecord, Seats, read_class};
use mml_ids::Memory;
use mml_lab::Lab;
use std::alloc::Global;
use std::io::{Read, Write};

/// Audits a journal, and checks the texts of `seats` as the record of its class. Then writes the tally of both, or what
/// the check found. If the journal or the record is refused, a text can't be read, or memory runs out, writes nothing
/// and returns the reason. Returns `Write` if a write fails, after which a beginning of the text may have been written.
pub fn judge_class<R: Read + Drop, S: Seats<R>, W: Write>(
    alloc: Global,
    lab: &Lab,
    journal: Vec<u8>,
    seats: &S,
    is_tallied: bool,
    writer: &mut W,
) -> Result<(), ClassError>
    ensures written { (start : List ℕ) (texts : ℕ → List ℕ) →
        Tell (S.begun seats.now) (S.text seats.now) start texts →
        OnOk result (IsWritten (IsJudged is_tallied lab.now journal.items start texts)
        (W.contents writer.old) (W.contents writer.new)) }
    ensures unwritten { (start : List ℕ) (texts : ℕ → List ℕ) →
        Tell (S.begun seats.now) (S.text seats.now) start texts →
        IfErr result (IsUnwritten (IsUntold lab.now journal.items start texts)
        (IsJudged is_tallied lab.now journal.items start texts) (W.contents writer.old) (W.contents writer.new)) }
{
    let text = text_of_class(alloc, lab, journal, seats, is_tallied)?;
    write_class(&text, writer)
}

/// Audits a journal and checks the record of its class. Returns the text of the tally of both, or of what the check
/// found. Returns the reason if the journal or the record is refused, a text can't be read, or memory runs out.
fn text_of_class<R: Read + Drop, S: Seats<R>>(
    alloc: Global,
    lab: &Lab,
    journal: Vec<u8>,
    seats: &S,
    is_tallied: bool,
) -> Result<Vec<u8>, ClassError>
    ensures told { (start : List ℕ) (texts : ℕ → List ℕ) →
        Tell (S.begun seats.now) (S.text seats.now) start texts →
        IfOk result (λ text. IsJudged is_tallied lab.now journal.items start texts text.items) }
    ensures untold { (start : List ℕ) (texts : ℕ → List ℕ) →
        Tell (S.begun seats.now) (S.text seats.now) start texts →
        IfErr result (IsUntold lab.now journal.items start texts) }
{
    match audit_class(alloc, lab, journal) {
        Ok(audited) => text_beside(
            alloc,
            lab,
            &audited.board,
            audited.events.as_slice(),
            seats,
            is_tallied,
        ),
        Err(why) => Err(ClassError::Audit(why)),
    }
}

/// Checks the record of a class against the events of its journal, which lead to `board`. Returns the text of the tally
/// of both, or of what the check found. Returns the reason if the texts are no record or can't be read, or memory runs
/// out. In the contract, `bytes` is any journal of these events.
fn text_beside<R: Read + Drop, S: Seats<R>>(
    alloc: Global,
    lab: &Lab,
    board: &Board,
    events: &[Event],
    seats: &S,
    is_tallied: bool,
) -> Result<Vec<u8>, ClassError>
    requires legal { is_legal_in lab.now events.now ≡ true }
    requires board { board.now ≡ world_in lab.now events.now }
    ensures told { (bytes start : List ℕ) (texts : ℕ → List ℕ) →
        IsJournalOf lab.now events.now bytes → Tell (S.begun seats.now) (S.text seats.now) start texts →
        IfOk result (λ text. IsJudged is_tallied lab.now bytes start texts text.items) }
    ensures untold { (bytes start : List ℕ) (texts : ℕ → List ℕ) →
        IsJournalOf lab.now events.now bytes → Tell (S.begun seats.now) (S.text seats.now) start texts →
        IfErr result (IsUntold lab.now bytes start texts) }
{
    // Only the tally needs what the lines asked for.
    match read_class(alloc, lab, events, is_tallied, seats) {
        Ok(class) => text_of(alloc, lab, board, events, &class, is_tallied),
        Err(why) => Err(ClassError::Record(why)),
    }
}

/// Returns the text of the tally of these legal events and of the record `class`, or of what the check of this record
/// found. The events lead to `board`. Returns `Memory` if memory runs out.
fn text_of(
    alloc: Global,
    lab: &Lab,
    board: &Board,
    events: &[Event],
    class: &ClassRecord,
    is_tallied: bool,
) -> Result<Vec<u8>, ClassError>
    requires legal { is_legal_in lab.now events.now ≡ true }
    requires board { board.now ≡ world_in lab.now events.now }
    ensures text { IfOk result (λ text.
        text.items ≡ judged_text is_tallied lab.now events.now class.now) }
    ensures memory { IfErr result (λ error. error ≡ ClassError.Memory) }
{
    let mut text = Vec::new(alloc);
    match put_judged(&mut text, alloc, lab, board, events, class, is_tallied) {
        Ok(()) => Ok(text),
        Err(_) => Err(ClassError::Memory),
    }
}

/// Appends the lines of the tally, or those about what the check found, as `text_of` returns them. Returns `Memory` if
/// memory runs out.
fn put_judged(
    out: &mut Vec<u8>,
    alloc: Global,
    lab: &Lab,
    board: &Board,
    events: &[Event],
    class: &ClassRecord,
    is_tallied: bool,
) -> Result<(), Memory>
    requires legal { is_legal_in lab.now events.now ≡ true }
    requires board { board.now ≡ world_in lab.now events.now }
    ensures { OnOk result
        (out.new.items ≡ out.old.items ++ judged_text is_tallied lab.now events.now class.now) }
{
    if is_tallied {
        put_lines(out, alloc, lab, board, events, &class.findings, &class.asks)
    } else {
        put_verified(out, lab, &class.findings, events.len() as u64, class.begun)
    }
}
