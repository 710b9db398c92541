//! The work of the subcommands, over any readers and writers.
//!
//! A lab describes a class: its network, its participants and its limits. A configuration is the network with its
//! registers. It is stable if no node is privileged, that is, if no rule is enabled. A board is the state of a run
//! after some events. An audit checks whether a text is the journal of a run of a lab. A sink is the destination of the
//! journal's bytes, and is fresh if it has none yet.
ghost use Rattle.std.specs.Prelude.{◌<◌, ◌-◌, ◌^◌, ◌∷◌, [], codes, decimal, OnOk};
ghost use Rattle.std.specs.List.{concat};
ghost use Rattle.std.specs.Io.KnownBytes.{Appends};
ghost use Rattle.mml_ids.specs.Pieces.{joined};
ghost use Rattle.mml_journal.specs.Taken.{IsFresh};
ghost use Rattle.mml_hall.specs.Journals.{Journals};
ghost use Rattle.mml_program.specs.Answering.{AnswersScript};
ghost use Rattle.mml_program.specs.Printing.{lab_line, world_line, TellsAudited};

use crate::fault::{Fault, memory_or};
use mml_audit::audit;
use mml_board::Board;
use mml_hall::{Hall, run_script};
use mml_ids::{Piece, put};
use mml_journal::Sink;
use mml_lab::Lab;
use std::alloc::Global;
use std::io::{Read, Write};

/// Writes a line with the numbers of a lab's nodes, links and students. Returns `Write` if the write fails, and
/// `Memory` if memory runs out.
pub fn write_size<W: Write>(alloc: Global, lab: &Lab, writer: &mut W) -> Result<(), Fault>
    ensures { OnOk result
        (Appends (W.contents writer.old) (W.contents writer.new) (lab_line lab.now)) }
{
    let pieces = [
        Piece::Text("ok: "),
        Piece::Number(lab.node_count()),
        Piece::Text(" nodes, "),
        Piece::Number(lab.link_count()),
        Piece::Text(" links, "),
        Piece::Number(lab.student_count()),
        Piece::Text(" students\n"),
    ];
    write_pieces(alloc, &pieces, writer)
}

/// Audits the text of a journal, and writes a line with the number of its events, the number of the configuration that
/// they lead to, and whether that is stable. If the text isn't a journal of the lab, writes nothing, and returns the
/// audit's error. Returns `Write` if the write fails, and `Memory` if memory runs out.
pub fn write_audit<W: Write>(
    alloc: Global,
    lab: &Lab,
    text: &[u8],
    writer: &mut W,
) -> Result<(), Fault>
    ensures { OnOk result
        (TellsAudited lab.now text.now (W.contents writer.old) (W.contents writer.new)) }
{
    let board = audit(alloc, lab, text)?;
    let written = write_world(alloc, &board, writer);
    // A call of `drop` keeps the proof short.
    drop(board);
    written
}

/// Writes the line about a journal that passed the audit: the number of its events, the number of the configuration,
/// and whether that is stable. `board` is the state after these events. Returns `Write` if the write fails, and
/// `Memory` if memory runs out.
fn write_world<W: Write>(alloc: Global, board: &Board, writer: &mut W) -> Result<(), Fault>
    ensures { OnOk result
        (Appends (W.contents writer.old) (W.contents writer.new) (world_line board.now)) }
{
    if board.privileged_count() == 0 {
        write_ended(alloc, board, ", stable\n", writer)
    } else {
        write_ended(alloc, board, ", not stable\n", writer)
    }
}

/// Writes a line with the number of events that led to `board` and the number of its configuration. The line ends with
/// `end`, which has its newline. Returns `Write` if the write fails, and `Memory` if memory runs out.
fn write_ended<W: Write>(
    alloc: Global,
    board: &Board,
    end: &str,
    writer: &mut W,
) -> Result<(), Fault>
    ensures { OnOk result (Appends (W.contents writer.old) (W.contents writer.new)
        (concat (codes "ok: " ∷ decimal board.now.place ∷ codes " events, configuration "
        ∷ decimal board.now.number ∷ end.now ∷ []))) }
{
    let pieces = [
        Piece::Text("ok: "),
        Piece::Number(board.place()),
        Piece::Text(" events, configuration "),
        Piece::Number(board.number()),
        Piece::Text(end),
    ];
    write_pieces(alloc, &pieces, writer)
}

/// Joins these pieces, which are texts and numbers, into one text, and writes it by one call of `write_all`. Returns
/// `Write` if the write fails, and `Memory` if memory runs out.
pub fn write_pieces<W: Write>(alloc: Global, pieces: &[Piece], writer: &mut W) -> Result<(), Fault>
    ensures { OnOk result
        (Appends (W.contents writer.old) (W.contents writer.new) (joined pieces.now)) }
{
    let mut text = Vec::new(alloc);
    if put(&mut text, pieces).is_err() {
        return Err(Fault::Memory);
    }
    match writer.write_all(&text) {
        Ok(()) => Ok(()),
        Err(error) => Err(memory_or(&error, Fault::Write)),
    }
}

/// Answers the lines of a script from `reader`, and returns the hall after the last one: the state of the run and of
/// its connections. The replies go to `writer`. They are buffered, and all are written before each read. The lines of
/// granted events go to the journal's `sink`, which must be fresh, and to which fewer than 2^64 - 1 writes have failed.
/// If the script ends early, returns the reason.
pub fn answer_script<R: Read, W: Write, S: Sink + Drop>(
    alloc: Global,
    lab: Lab,
    reader: &mut R,
    writer: &mut W,
    sink: S,
) -> Result<Hall<S>, Fault>
    requires fresh { IsFresh (S.contents sink) }
    requires countable { S.failures sink < 2 ^ 64 - 1 }
    ensures { AnswersScript (Journals S.contents S.failures lab sink) result lab (R.remaining reader.old) (R.remaining reader.new)
        (W.contents writer.old) (W.contents writer.new) }
{
    let hall = run_script(alloc, lab, reader, writer, sink)?;
    Ok(hall)
}
