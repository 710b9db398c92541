//! The table of the limits of a class, as lines for other programs.
//!
//! A seat's file has what a host records of the connections that one seat serves. An entry is a line with its reply.
//! Each function that appends to `out` returns `Memory` if memory runs out.
ghost use Rattle.std.specs.Prelude.{◌≡◌, ◌++◌, OnOk};
ghost use Rattle.std.specs.Io.KnownBytes.{Appends};
ghost use Rattle.mml_host_program.specs.Limits.{limit_line, network_limits, class_limits, text_limits, record_limits, deadlines, limits_text};

use mml_class::MAX_RECORD;
use mml_codec::MAX_REQUEST;
use mml_ends::Retrying;
use mml_ids::{MAX_ID, MAX_NODES, Memory, Piece, put};
use mml_lab::{MAX_EVENTS, MAX_KEY, MAX_NAME, MAX_OWNERS, MAX_SESSIONS, MAX_STUDENTS};
use mml_ports::{DESK_GREETING, GREETING, NEXT_LINE, WRITE_LIMIT};
use mml_program::{Fault as ProgramFault, MAX_FILE, MAX_JOURNAL, memory_if_lacked, memory_or};
use mml_record::MAX_ENTRY;
use mml_recording::MOST;
use std::alloc::Global;
use std::io;
use std::io::Write;

/// Prints the table of limits on standard output, one line for each limit: its name, the greatest value that is
/// allowed, and its unit. Returns an error if the write fails, or memory runs out.
pub fn print_limits<R: Print + AllocGlobal>(rt: &R) -> Result<(), ProgramFault> {
    let mut writer = Retrying::new(io::writer(rt));
    match write_limits(rt.alloc(), &mut writer) {
        Ok(()) => Ok(()),
        Err(fault) => Err(memory_if_lacked(fault, writer.lacked_memory)),
    }
}

/// Writes the table of limits, as `print_limits` describes it. Returns `Write` if the write fails, or `Memory` if
/// memory runs out.
pub fn write_limits<W: Write>(alloc: Global, writer: &mut W) -> Result<(), ProgramFault>
    ensures { OnOk result (Appends (W.contents writer.old) (W.contents writer.new) limits_text) }
{
    let mut text = Vec::new(alloc);
    if put_limits(&mut text).is_err() {
        return Err(ProgramFault::Memory);
    }
    match writer.write_all(&text) {
        Ok(()) => Ok(()),
        Err(error) => Err(memory_or(&error, ProgramFault::Write)),
    }
}

/// Appends the lines of all limits.
fn put_limits(out: &mut Vec<u8>) -> Result<(), Memory>
    ensures { OnOk result (out.new.items ≡ out.old.items ++ limits_text) }
{
    put_network_limits(out)?;
    put_class_limits(out)?;
    put_text_limits(out)?;
    put_record_limits(out)?;
    put_deadlines(out)
}

/// Appends the limits of a lab's network: its nodes, the greatest identifier, its students, and the owners of a node.
fn put_network_limits(out: &mut Vec<u8>) -> Result<(), Memory>
    ensures { OnOk result (out.new.items ≡ out.old.items ++ network_limits) }
{
    put_limit(out, "nodes", MAX_NODES, "count")?;
    put_limit(out, "identifier", MAX_ID, "number")?;
    put_limit(out, "students", MAX_STUDENTS, "count")?;
    put_limit(out, "owners", MAX_OWNERS, "count")
}

/// Appends the limits of a lab's class: its sessions, its events, and the lengths of a name and of a key.
fn put_class_limits(out: &mut Vec<u8>) -> Result<(), Memory>
    ensures { OnOk result (out.new.items ≡ out.old.items ++ class_limits) }
{
    put_limit(out, "sessions", MAX_SESSIONS, "count")?;
    put_limit(out, "events", MAX_EVENTS, "count")?;
    put_limit(out, "name", MAX_NAME, "characters")?;
    put_limit(out, "key", MAX_KEY, "characters")
}

/// Appends the limits of texts, in bytes: of a request's line, of a lab file and of a journal.
fn put_text_limits(out: &mut Vec<u8>) -> Result<(), Memory>
    ensures { OnOk result (out.new.items ≡ out.old.items ++ text_limits) }
{
    put_limit(out, "line", MAX_REQUEST as u64, "bytes")?;
    put_limit(out, "lab", u64::from(MAX_FILE), "bytes")?;
    put_limit(out, "journal", u64::from(MAX_JOURNAL), "bytes")
}

/// Appends the limits of a record, in bytes: of one entry, of what a host writes to a seat's file, and of what is read
/// from one.
fn put_record_limits(out: &mut Vec<u8>) -> Result<(), Memory>
    ensures { OnOk result (out.new.items ≡ out.old.items ++ record_limits) }
{
    put_limit(out, "entry", MAX_ENTRY as u64, "bytes")?;
    put_limit(out, "seat-written", MOST, "bytes")?;
    put_limit(out, "seat-read", u64::from(MAX_RECORD), "bytes")
}

/// Appends the deadlines of a connection, in seconds: of its hello at the students' port and at the desk, of each next
/// line, and of a write.
fn put_deadlines(out: &mut Vec<u8>) -> Result<(), Memory>
    ensures { OnOk result (out.new.items ≡ out.old.items ++ deadlines) }
{
    put_limit(out, "greeting", GREETING, "seconds")?;
    put_limit(out, "desk-greeting", DESK_GREETING, "seconds")?;
    put_limit(out, "next-line", NEXT_LINE, "seconds")?;
    put_limit(out, "write", WRITE_LIMIT, "seconds")
}

/// Appends the line of one limit: its name, the greatest value `most` that is allowed, and its unit.
fn put_limit<'a>(out: &mut Vec<u8>, name: &'a str, most: u64, unit: &'a str) -> Result<(), Memory>
    ensures { OnOk result (out.new.items ≡ out.old.items ++ limit_line name.now most unit.now) }
{
    let pieces = [
        Piece::Text(name),
        Piece::Text(" "),
        Piece::Number(most),
        Piece::Text(" "),
        Piece::Text(unit),
        Piece::Text("\n"),
    ];
    put(out, &pieces)
}
