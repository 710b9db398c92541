//! The run of a script: its lines are answered one by one, and the replies are written.
//!
//! A script is a list of request lines, each after the number of its connection. A hall has the state of all its
//! connections. The replies that are buffered in `outgoing` and not yet written are held. A sink is the destination of
//! the journal's bytes.
ghost use Rattle.std.specs.Prelude.{◌≡◌, ◌≢◌, ◌+◌, ◌-◌, ◌^◌, ◌<◌, ◌≤◌, ◌++◌, ◌∷◌, [], length, decimal, None, OnOk, IfOk, IfErr, vec_capacity};
ghost use Rattle.std.specs.Io.KnownBytes.{prepend_known};
ghost use Rattle.mml_lines.specs.declared.lines.TheConstants.{READ_SIZE};
ghost use Rattle.mml_lines.specs.LinesOf.{IsWithinLimit};
ghost use Rattle.mml_lines.specs.LinesState.{bytes_ahead, fresh};
ghost use Rattle.mml_lines.specs.Sending.{BreaksOff, Sends};
ghost use Rattle.mml_hall.specs.declared.script.ScriptFault.TheVariants as faults;
ghost use Rattle.mml_hall.specs.Turns.{Halts, opening};
ghost use Rattle.mml_journal.specs.Taken.{IsFresh};
ghost use Rattle.mml_hall.specs.Journals.{TellsJournal, Journals};
ghost use Rattle.mml_hall.specs.ScriptLines.{IsScriptLine, line_of};
ghost use Rattle.mml_hall.specs.Scripts.{Finished, Stopped};
ghost use Rattle.mml_hall.specs.inside.Ending.{EndsScript};
ghost use Rattle.mml_codec.specs.Replies.{reply_line, is_short, IsAbout, TellsFor};
ghost use Rattle.mml_hall.specs.Serving.{told_of, ServesLine, ServesNext, ServesText, Tells};

use crate::MAX_SCRIPT_LINE;
use crate::hall::Hall;
use crate::script_line::{ScriptLine, read_script_line};
use mml_codec::{REPLY_ROOM, Refused, Reply, append_reply, write_reply};
use mml_ids::Memory;
use mml_journal::Sink;
use mml_lab::Lab;
use mml_lines::{LineRest, Lines, Outgoing, Step, WriteFault};
use std::alloc::Global;
use std::io::{Read, Write};

/// Why a script ended before its input did.
#[derive(Clone, Copy, Debug, PartialEq, Eq)]
pub enum ScriptFault {
    /// A read failed, or another read was needed after the largest number of reads that is allowed.
    Read,
    /// A write failed, or wrote nothing. `written` is the number of bytes of the first line that isn't written whole.
    /// If a flush failed after all lines were written, the number is 0.
    Write { written: usize },
    /// The line with this number, counted from 1, isn't a script line.
    BadLine(u64),
    /// Memory ran out before anything was read.
    Memory,
}

impl From<Memory> for ScriptFault {
    ghost from_gives = { λ _ e. e ≡ faults.Memory };

    // Turns a failed allocation into `ScriptFault::Memory`, so that `?` returns it.
    fn from(_memory: Memory) -> ScriptFault {
        ScriptFault::Memory
    }
}

impl From<WriteFault> for ScriptFault {
    ghost from_gives = { λ f e. e ≡ faults.Write f.written };

    // Turns a failed write into `ScriptFault::Write`, with the same count of bytes, so that `?` returns it.
    fn from(fault: WriteFault) -> ScriptFault {
        ScriptFault::Write {
            written: fault.written,
        }
    }
}

/// Answers the lines of a script, one by one, in a hall of the lab. Returns the hall when the input ends, or the reason
/// why the script ended before. Replies are buffered: the writer is flushed only before the next line needs a read, and
/// before a bad line is reported. The lines of the granted events go to the sink, which must have taken nothing yet,
/// and is dropped with the hall if an error ends the script. Fewer than 2^64 - 1 writes to the sink may have failed.
/// Returns `Memory` only before anything is read.
pub fn run_script<R: Read, W: Write, S: Sink + Drop>(
    alloc: Global,
    lab: Lab,
    reader: &mut R,
    writer: &mut W,
    sink: S,
) -> Result<Hall<S>, ScriptFault>
    requires fresh { IsFresh (S.contents sink) }
    requires countable { S.failures sink < 2 ^ 64 - 1 }
    ensures finished { IfOk result (λ hall. Finished (Journals S.contents S.failures lab sink)
        hall lab (R.remaining reader.old) (R.remaining reader.new)
        (W.contents writer.old) (W.contents writer.new)) }
    ensures stopped { IfErr result (λ fault. Stopped (Journals S.contents S.failures lab sink)
        fault lab (R.remaining reader.old) (R.remaining reader.new)
        (W.contents writer.old) (W.contents writer.new)) }
    ensures untouched { result ≡ Err ScriptFault.Memory →
        (reader.new ≡ reader.old) × (writer.new ≡ writer.old) }
{
    let mut hall = Hall::new(alloc, lab, sink)?;
    match answer_all(alloc, &mut hall, reader, writer) {
        Ok(()) => Ok(hall),
        Err(fault) => {
            // Dropped by a call, since the proof takes longer if the hall is dropped at the end of its scope.
            drop(hall);
            Err(fault)
        }
    }
}

// The buffers of a script: for its lines, for one reply, and for the replies that are written together. All buffers are
// reserved before anything is read.
#[derive(Drop)]
struct Buffers {
    lines: Lines,
    reply: Vec<u8>,
    outgoing: Outgoing,
}

impl Buffers {
    /// Returns empty buffers, with room for any reply except one to a look or a report. Returns `Memory` if memory runs
    /// out.
    fn new(alloc: Global) -> Result<Buffers, Memory>
        ensures lines { IfOk result (λ b. b.lines ≡ fresh MAX_SCRIPT_LINE) }
        ensures room { IfOk result (λ b. REPLY_ROOM ≤ vec_capacity b.reply) }
        ensures outgoing { IfOk result (λ b. b.outgoing ≡ []) }
    {
        let lines = Lines::new(alloc, MAX_SCRIPT_LINE)?;
        let reply = Vec::with_capacity(alloc, REPLY_ROOM)?;
        let outgoing = Outgoing::new(alloc)?;
        Ok(Buffers {
            lines,
            reply,
            outgoing,
        })
    }
}

/// Reserves the buffers, and answers all lines of the input in a hall that was just opened. Returns an error if the
/// script ended before its input. This error is `Memory` only if nothing was read.
fn answer_all<R: Read, W: Write, S: Sink>(
    alloc: Global,
    hall: &mut Hall<S>,
    reader: &mut R,
    writer: &mut W,
) -> Result<(), ScriptFault>
    requires fresh { IsFresh (S.contents hall.old.sink) }
    requires opening { hall.old.state ≡ opening hall.old.lab }
    ensures ends { EndsScript S.contents S.failures result hall.old hall.new
        (R.remaining reader.old) (R.remaining reader.new)
        (W.contents writer.old) (W.contents writer.new) }
    ensures untouched { result ≡ Err ScriptFault.Memory →
        (reader.new ≡ reader.old) × (writer.new ≡ writer.old) }
{
    let mut buffers = Buffers::new(alloc)?;
    let answered = answer_lines(alloc, hall, &mut buffers, reader, writer);
    // A call of `drop` keeps the proof short.
    drop(buffers);
    answered
}

/// Answers the lines of the input, one by one, until it ends. The buffers must be new, and the hall just opened.
/// Returns an error if the script ended before its input. This error is never `Memory`.
fn answer_lines<R: Read, W: Write, S: Sink>(
    alloc: Global,
    hall: &mut Hall<S>,
    buffers: &mut Buffers,
    reader: &mut R,
    writer: &mut W,
) -> Result<(), ScriptFault>
    requires fresh { IsFresh (S.contents hall.old.sink) }
    requires opening { hall.old.state ≡ opening hall.old.lab }
    requires nothing_read { buffers.old.lines ≡ fresh MAX_SCRIPT_LINE }
    requires room { REPLY_ROOM ≤ vec_capacity buffers.old.reply }
    requires nothing_held { buffers.old.outgoing ≡ [] }
    ensures ends { EndsScript S.contents S.failures result hall.old hall.new
        (R.remaining reader.old) (R.remaining reader.new)
        (W.contents writer.old) (W.contents writer.new) }
    ensures begun { result ≢ Err ScriptFault.Memory }
{
    let mut answered: u64 = 0;
    loop {
        flush_before_read(&buffers.lines, &mut buffers.outgoing, writer)?;
        match serve_next(alloc, hall, buffers, reader, writer) {
            ScriptStep::Answered => answered += 1,
            // The end is found by a read, and all replies were flushed before it.
            ScriptStep::End => return Ok(()),
            ScriptStep::BadLine => {
                buffers.outgoing.flush(writer)?;
                return Err(bad_line_after(answered));
            }
            ScriptStep::ReadFault => return Err(ScriptFault::Read),
            ScriptStep::WriteFault(fault) => {
                return Err(ScriptFault::Write {
                    written: fault.written,
                });
            }
        }
    }
}

/// Returns the error of a line that is no script line, with its number, which counts from 1. `answered` is the number
/// of lines before it, which must be below 2^64 - 1.
fn bad_line_after(answered: u64) -> ScriptFault
    requires { answered < 2 ^ 64 - 1 }
    ensures { result ≡ ScriptFault.BadLine (answered + 1) }
{
    ScriptFault::BadLine(answered + 1)
}

// What happened to the next line of a script.
#[derive(Clone, Copy)]
enum ScriptStep {
    // The line is answered, and its reply is held or written.
    Answered,
    // There is no next line, since the input is at its end.
    End,
    // The line isn't a script line.
    BadLine,
    // A read failed, or one more was needed than is allowed.
    ReadFault,
    // The line is answered, but a write of replies failed.
    WriteFault(WriteFault),
}

/// Flushes the held replies if `lines` needs a read to find the next line, and else does nothing. `lines` must not have
/// returned a final result yet. Returns `WriteFault` if a write or the flush fails.
fn flush_before_read<W: Write>(
    lines: &Lines,
    outgoing: &mut Outgoing,
    writer: &mut W,
) -> Result<(), WriteFault>
    requires going { lines.now.ending ≡ None }
    ensures written { OnOk result
        (IsWithinLimit lines.now.limit lines.now.unread → outgoing.new ≡ []) }
    ensures unneeded { ¬ (IsWithinLimit lines.now.limit lines.now.unread)
        → (outgoing.new ≡ outgoing.old) × (writer.new ≡ writer.old) }
    ensures ok { OnOk result (Sends (W.contents writer.old) (W.contents writer.new)
        outgoing.old outgoing.new) }
    ensures err { IfErr result (λ fault. BreaksOff fault
        (W.contents writer.old) (W.contents writer.new) outgoing.old) }
{
    if lines.needs_read() {
        outgoing.flush(writer)?;
    }
    Ok(())
}

/// Reads the next line, and answers it if it is a script line. Returns the outcome. `lines` must not have returned a
/// final result yet, and the buffer `reply` must have a capacity of at least `REPLY_ROOM`. If the line needs a read,
/// the caller must have flushed all held replies before. This function, `serve_line` and `serve_script_line` are
/// inlined, so that the loop over the lines makes fewer calls.
#[inline(always)]
fn serve_next<R: Read, W: Write, S: Sink>(
    alloc: Global,
    hall: &mut Hall<S>,
    buffers: &mut Buffers,
    reader: &mut R,
    writer: &mut W,
) -> ScriptStep
    requires going { buffers.old.lines.ending ≡ None }
    requires limit { buffers.old.lines.limit ≡ MAX_SCRIPT_LINE }
    requires room { REPLY_ROOM ≤ vec_capacity buffers.old.reply }
    // All replies are written before a read.
    requires written { IsWithinLimit buffers.old.lines.limit buffers.old.lines.unread → buffers.old.outgoing ≡ [] }
    ensures going { result ≡ ScriptStep.Answered → buffers.new.lines.ending ≡ None }
    ensures limit { buffers.new.lines.limit ≡ MAX_SCRIPT_LINE }
    ensures few { result ≡ ScriptStep.Answered → length buffers.new.lines.unread < READ_SIZE }
    ensures room { REPLY_ROOM ≤ vec_capacity buffers.new.reply }
    ensures lab { hall.new.lab ≡ hall.old.lab }
    ensures halts { Halts hall.old.state.halted hall.new.state.halted
        (S.failures hall.old.sink) (S.failures hall.new.sink) }
    ensures journal { TellsJournal hall.new.lab hall.new.state (S.contents hall.new.sink) }
    // After each line, fewer bytes can still come, since the number of reads is limited.
    ensures progress { result ≡ ScriptStep.Answered → bytes_ahead buffers.new.lines < bytes_ahead buffers.old.lines }
    ensures serves { ServesNext result hall.old.lab hall.old.state hall.new.state
        (prepend_known buffers.old.lines.unread (R.remaining reader.old))
        buffers.new.lines.unread (R.remaining reader.new) buffers.old.outgoing buffers.new.outgoing
        (W.contents writer.old) (W.contents writer.new) }
{
    // Called only for its contract, which the proof needs: the sink has the journal.
    let _lab = hall.lab();
    match buffers.lines.next(reader) {
        Step::Line => serve_line(
            alloc,
            hall,
            buffers.lines.bytes(),
            &mut buffers.reply,
            &mut buffers.outgoing,
            writer,
        ),
        Step::TooLong => ScriptStep::BadLine,
        Step::End => ScriptStep::End,
        Step::ReadFault => ScriptStep::ReadFault,
    }
}

/// Answers a line of the input, and holds the reply in `outgoing`. Returns `Answered`, or `WriteFault` if a write
/// failed. Returns `BadLine`, and answers nothing, if the line is no script line. `out` is the buffer for a reply that
/// `outgoing` can't take directly. It must have a capacity of at least `REPLY_ROOM`.
#[inline(always)]
fn serve_line<W: Write, S: Sink>(
    alloc: Global,
    hall: &mut Hall<S>,
    line: &[u8],
    out: &mut Vec<u8>,
    outgoing: &mut Outgoing,
    writer: &mut W,
) -> ScriptStep
    requires line { IsWithinLimit MAX_SCRIPT_LINE line.now }
    requires room { REPLY_ROOM ≤ vec_capacity out.old }
    ensures room { REPLY_ROOM ≤ vec_capacity out.new }
    ensures lab { hall.new.lab ≡ hall.old.lab }
    ensures halts { Halts hall.old.state.halted hall.new.state.halted
        (S.failures hall.old.sink) (S.failures hall.new.sink) }
    ensures journal { TellsJournal hall.new.lab hall.new.state (S.contents hall.new.sink) }
    ensures serves { ServesText result hall.old.lab hall.old.state hall.new.state line.now
        outgoing.old outgoing.new (W.contents writer.old) (W.contents writer.new) }
{
    match read_script_line(line, hall.lab().sessions()) {
        Some(line) => match serve_script_line(alloc, hall, line, out, outgoing, writer) {
            Ok(()) => ScriptStep::Answered,
            Err(fault) => ScriptStep::WriteFault(fault),
        },
        None => ScriptStep::BadLine,
    }
}

/// Answers a script line, and appends the reply to the held ones in `outgoing`. A short reply is written straight into
/// that buffer, if it has room. Any other reply is written by `write_by_buffer`, which uses the buffer `out`, of a
/// capacity of at least `REPLY_ROOM`. Returns `WriteFault` if a write fails.
#[inline(always)]
fn serve_script_line<W: Write, S: Sink>(
    alloc: Global,
    hall: &mut Hall<S>,
    line: ScriptLine<'_>,
    out: &mut Vec<u8>,
    outgoing: &mut Outgoing,
    writer: &mut W,
) -> Result<(), WriteFault>
    requires script { IsScriptLine hall.old.lab.sessions (line_of line) }
    requires front { line.front.now ≡ decimal line.connection ++ 32 ∷ [] }
    requires room { REPLY_ROOM ≤ vec_capacity out.old }
    ensures room { REPLY_ROOM ≤ vec_capacity out.new }
    ensures lab { hall.new.lab ≡ hall.old.lab }
    ensures halts { Halts hall.old.state.halted hall.new.state.halted
        (S.failures hall.old.sink) (S.failures hall.new.sink) }
    ensures journal { TellsJournal hall.new.lab hall.new.state (S.contents hall.new.sink) }
    ensures serves { ServesLine result hall.old.lab hall.old.state hall.new.state
        (line_of line.entry) outgoing.old outgoing.new
        (W.contents writer.old) (W.contents writer.new) }
{
    // A value for `answer_into` to replace.
    let mut reply = Reply::Bye;
    hall.answer_into(alloc, line.connection, line.request, &mut reply);
    let rest = ReplyRest {
        lab: hall.lab(),
        reply: &reply,
    };
    // Calls of `drop` keep the proof short.
    if outgoing.append(line.front, &rest) {
        drop(reply);
        return Ok(());
    }
    let told = write_by_buffer(alloc, rest, line.front, out, outgoing, writer);
    drop(reply);
    told
}

// A reply as the part of an output line after the connection's number.
#[derive(Clone, Copy)]
struct ReplyRest<'a> {
    lab: &'a Lab,
    reply: &'a Reply,
}

impl LineRest for ReplyRest<'_> {
    ghost may_tell = { λ t. IsAbout t.lab.now.ids t.lab.now.roster t.reply.now };

    ghost text = { λ t. reply_line t.lab.now.ids t.lab.now.roster t.reply.now };

    ghost is_short = { λ t. is_short t.reply.now };

    // Appends the reply's line to `out`, unless the reply is a look or a report. Returns whether it was appended. `out`
    // has room, by the contract of `LineRest::append_to`.
    fn append_to(&self, out: &mut Vec<u8>) -> bool {
        append_reply(self.lab.ids(), self.lab.roster(), self.reply, out)
    }
}

/// Writes the line of the reply `rest` into the buffer `out`, and from there appends it to the held lines in
/// `outgoing`, after `front`: the number of the connection and a space. If memory runs out, the line is that of the
/// refusal `memory`. `out` must have a capacity of at least `REPLY_ROOM`. The function is called for the reply to a
/// `look` or `report`, and for any other reply that has no room after the held lines: these are then written to
/// `writer` first. Returns `WriteFault` if that write fails.
#[inline(never)]
fn write_by_buffer<W: Write>(
    alloc: Global,
    rest: ReplyRest<'_>,
    front: &[u8],
    out: &mut Vec<u8>,
    outgoing: &mut Outgoing,
    writer: &mut W,
) -> Result<(), WriteFault>
    requires room { REPLY_ROOM ≤ vec_capacity out.old }
    requires about { IsAbout rest.lab.now.ids rest.lab.now.roster rest.reply.now }
    ensures room { REPLY_ROOM ≤ vec_capacity out.new }
    ensures tells { Tells result rest.entry.lab.now rest.entry.reply.now front.now outgoing.old outgoing.new
        (W.contents writer.old) (W.contents writer.new) }
{
    // Only the proof needs to know whether the line is the reply's own.
    let _is_whole = put_reply(alloc, rest.lab, rest.reply, out);
    outgoing.put(front, out, writer)
}

/// Replaces the bytes of `out` by the line of a reply, or by the line of the refusal `memory` if memory runs out.
/// Returns true if the bytes are now the line of the reply, and false if they are that of the refusal. `out` must have
/// a capacity of at least `REPLY_ROOM`.
fn put_reply(alloc: Global, lab: &Lab, reply: &Reply, out: &mut Vec<u8>) -> bool
    requires room { REPLY_ROOM ≤ vec_capacity out.old }
    requires about { IsAbout lab.now.ids lab.now.roster reply.now }
    ensures told { TellsFor reply.now (told_of reply.now result) }
    ensures room { REPLY_ROOM ≤ vec_capacity out.new }
    ensures line { out.new.items ≡ reply_line lab.now.ids lab.now.roster (told_of reply.now result) }
{
    match write_reply(alloc, lab.ids(), lab.roster(), reply, out) {
        Ok(()) => true,
        Err(_) => {
            write_memory_refusal(alloc, lab, out);
            false
        }
    }
}

/// Replaces the bytes of `out` by the line of the refusal `memory`, which says that memory ran out. `out` must have a
/// capacity of at least `REPLY_ROOM`, so nothing is allocated, and `unwrap` succeeds.
fn write_memory_refusal(alloc: Global, lab: &Lab, out: &mut Vec<u8>)
    requires room { REPLY_ROOM ≤ vec_capacity out.old }
    ensures room { REPLY_ROOM ≤ vec_capacity out.new }
    ensures line { out.new.items ≡ reply_line lab.now.ids lab.now.roster (Reply.Refuse Refused.Memory) }
{
    let told = Reply::Refuse(Refused::Memory);
    write_reply(alloc, lab.ids(), lab.roster(), &told, out).unwrap();
    drop(told);
}
