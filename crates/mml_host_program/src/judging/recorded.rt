//! The lines of the tally of a journal together with the record of its class.
//!
//! The record of a class has the lines that were answered, and their replies. The findings of a record are its summary,
//! and its asks are what its lines asked for. A round is a list of events in which each node has its turn. A board is
//! the state of a run after some events.
ghost use Rattle.std.specs.Prelude.{◌≡◌, ◌++◌, true, OnOk};
ghost use Rattle.mml_board.specs.Lists.{is_legal_in};
ghost use Rattle.mml_tally.specs.RecordTexts.{recorded_text};
ghost use Rattle.mml_tally.specs.Rounds.{rounds_line};

use mml_board::{Board, Event};
use mml_ids::Memory;
use mml_lab::Lab;
use mml_tally::{Ask, Findings, put_recorded_tally, put_rounds};
use std::alloc::Global;

/// Appends the lines of the tally of these legal events, which lead to `board`, with the findings and the asks of a
/// record. Then appends the line about rounds. Returns `Memory` if memory runs out.
pub(crate) fn put_lines(
    out: &mut Vec<u8>,
    alloc: Global,
    lab: &Lab,
    board: &Board,
    events: &[Event],
    findings: &Findings,
    asks: &[Ask],
) -> Result<(), Memory>
    requires { is_legal_in lab.now events.now ≡ true }
    ensures { OnOk result (out.new.items ≡ out.old.items
        ++ (recorded_text lab.now board.now events.now findings.now asks.now
        ++ rounds_line lab.now events.now)) }
{
    put_recorded_tally(out, alloc, lab, board, events, findings, asks)?;
    put_rounds(out, alloc, lab, events)
}
