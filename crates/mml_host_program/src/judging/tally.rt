//! The tally of a journal: counts of what happened in a run, as lines for other programs.
//!
//! The journal has a line for each granted event, and an audit checks it. A board is the state of a run after some
//! events. A round is a list of events in which each node has its turn.
ghost use Rattle.std.specs.Prelude.{◌≡◌, ◌++◌, true, IfErr, IfOk, OnOk};
ghost use Rattle.mml_board.specs.Lists.{is_legal_in};
ghost use Rattle.mml_tally.specs.Rounds.{rounds_line};
ghost use Rattle.mml_tally.specs.Texts.{tally_text};
ghost use Rattle.mml_host_program.specs.Judging.{IsUnwritten, IsWritten};
ghost use Rattle.mml_host_program.specs.Tallies.{HasNoTally, IsTally};

use crate::judging::class_error::ClassError;
use crate::judging::class_writing::{audit_class, write_class};
use mml_board::{Board, Event};
use mml_ids::Memory;
use mml_lab::Lab;
use mml_tally::{put_rounds, put_tally};
use std::alloc::Global;
use std::io::Write;

/// Audits a journal, and writes the tally of its events. If the journal doesn't pass the audit, or memory runs out,
/// writes nothing and returns the reason. Returns `Write` if a write fails, after which a beginning of the tally may
/// have been written.
pub fn write_tally<W: Write>(
    alloc: Global,
    lab: &Lab,
    journal: Vec<u8>,
    writer: &mut W,
) -> Result<(), ClassError>
    ensures written { OnOk result (IsWritten (IsTally lab.now journal.items)
        (W.contents writer.old) (W.contents writer.new)) }
    ensures unwritten { IfErr result (IsUnwritten (HasNoTally lab.now journal.items)
        (IsTally lab.now journal.items) (W.contents writer.old) (W.contents writer.new)) }
{
    let text = tally_of(alloc, lab, journal)?;
    write_class(&text, writer)
}

/// Audits a journal. Returns the text of the tally of its events, or the reason if the journal doesn't pass the audit,
/// or memory runs out.
fn tally_of(alloc: Global, lab: &Lab, journal: Vec<u8>) -> Result<Vec<u8>, ClassError>
    ensures told { IfOk result (λ text. IsTally lab.now journal.items text.items) }
    ensures untold { IfErr result (HasNoTally lab.now journal.items) }
{
    match audit_class(alloc, lab, journal) {
        Ok(audited) => text_of(alloc, lab, &audited.board, audited.events.as_slice()),
        Err(why) => Err(ClassError::Audit(why)),
    }
}

/// Returns the text of the tally of these legal events, which lead to `board`. Returns `Memory` if memory runs out.
fn text_of(alloc: Global, lab: &Lab, board: &Board, events: &[Event]) -> Result<Vec<u8>, ClassError>
    requires { is_legal_in lab.now events.now ≡ true }
    ensures text { IfOk result (λ text. text.items
        ≡ tally_text lab.now board.now events.now ++ rounds_line lab.now events.now) }
    ensures memory { IfErr result (λ error. error ≡ ClassError.Memory) }
{
    let mut text = Vec::new(alloc);
    match put_lines(&mut text, alloc, lab, board, events) {
        Ok(()) => Ok(text),
        Err(_) => Err(ClassError::Memory),
    }
}

/// Appends the lines of the tally of these legal events, which lead to `board`, and then the line about rounds. Returns
/// `Memory` if memory runs out.
fn put_lines(
    out: &mut Vec<u8>,
    alloc: Global,
    lab: &Lab,
    board: &Board,
    events: &[Event],
) -> Result<(), Memory>
    requires { is_legal_in lab.now events.now ≡ true }
    ensures { OnOk result (out.new.items ≡ out.old.items
        ++ (tally_text lab.now board.now events.now ++ rounds_line lab.now events.now)) }
{
    put_tally(out, alloc, lab, board, events)?;
    put_rounds(out, alloc, lab, events)
}
