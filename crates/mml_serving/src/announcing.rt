//! The first and the last line that a server prints.
//!
//! The log is the result of a house (one run of a lab) that has ended: its events, and the board after them. A journal
//! is halted if a line couldn't be written to it. From then on nothing is granted.
ghost use Rattle.std.specs.Prelude.{◌≡◌, false, length, IfErr, OnOk};
ghost use Rattle.std.specs.Io.KnownBytes.{Appends};
ghost use Rattle.mml_ids.specs.Pieces.{joined};
ghost use Rattle.mml_serving.specs.Closings.{IsCutShort, LacksLastLine, done_line, listening_line};

use crate::serving::ServeFault;
use mml_ids::{Piece, put};
use mml_lines::put_all;
use mml_window::Log;
use std::alloc::Global;
use std::io::Write;

/// Writes a server's first line, which names the port on which it listens. Returns `Memory`, and writes nothing, if
/// memory runs out. Returns `Write` if the writer fails; a beginning of the line may then be written.
pub fn write_listening<W: Write>(alloc: Global, port: u16, writer: &mut W) -> Result<(), ServeFault>
    ensures { OnOk result
        (Appends (W.contents writer.old) (W.contents writer.new) (listening_line port)) }
{
    let pieces = [
        Piece::Text("listening on port "),
        Piece::Number(port as u64),
        Piece::Text("\n"),
    ];
    write_pieces(alloc, &pieces, writer)
}

/// Writes a server's last line: the number of events, and the number of the configuration that they led to. Writes
/// nothing and returns `Halted` if the journal was halted, or `Memory` if memory runs out. Returns `Write` if the
/// writer fails; a beginning of the line may then be written.
pub fn write_last<S, W: Write>(
    alloc: Global,
    log: &Log<S>,
    writer: &mut W,
) -> Result<(), ServeFault>
    ensures unhalted { OnOk result (log.now.halted ≡ false) }
    ensures told { OnOk result (Appends (W.contents writer.old) (W.contents writer.new)
        (done_line (length log.now.events) log.now.board.number)) }
    ensures lacking { IfErr result (LacksLastLine log.now.halted (W.contents writer.old)
        (W.contents writer.new) (done_line (length log.now.events) log.now.board.number)) }
{
    if log.halted {
        return Err(ServeFault::Halted);
    }
    let events = log.events.as_slice().len() as u64;
    write_done(alloc, events, log.board.number(), writer)
}

/// Writes the last line of a server's output, which names the number of events and the `number` of the configuration.
/// Returns `Memory`, and writes nothing, if memory runs out. Returns `Write` if the writer fails; a beginning of the
/// line may then be written.
fn write_done<W: Write>(
    alloc: Global,
    events: u64,
    number: u64,
    writer: &mut W,
) -> Result<(), ServeFault>
    ensures told { OnOk result
        (Appends (W.contents writer.old) (W.contents writer.new) (done_line events number)) }
    ensures cut { IfErr result
        (IsCutShort (W.contents writer.old) (W.contents writer.new) (done_line events number)) }
{
    let pieces = [
        Piece::Text("done: "),
        Piece::Number(events),
        Piece::Text(" events, configuration "),
        Piece::Number(number),
        Piece::Text("\n"),
    ];
    write_pieces(alloc, &pieces, writer)
}

/// Joins these pieces into one text and writes it, so that the text isn't sent in pieces. Returns `Memory`, and writes
/// nothing, if memory runs out. Returns `Write` if the writer fails; a beginning of the text may then be written.
fn write_pieces<W: Write>(alloc: Global, pieces: &[Piece], writer: &mut W) -> Result<(), ServeFault>
    ensures told { OnOk result
        (Appends (W.contents writer.old) (W.contents writer.new) (joined pieces.now)) }
    ensures cut { IfErr result
        (IsCutShort (W.contents writer.old) (W.contents writer.new) (joined pieces.now)) }
{
    let mut text = Vec::new(alloc);
    if put(&mut text, pieces).is_err() {
        return Err(ServeFault::Memory);
    }
    match put_all(writer, &text) {
        Ok(()) => Ok(()),
        Err(_) => Err(ServeFault::Write),
    }
}
