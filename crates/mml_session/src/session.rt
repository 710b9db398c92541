//! A session: the lines of one connection are answered in order, to its end.
//!
//! A window is one session's view of the published events and board. An account is known on a connection from its
//! granted hello to its bye. `connection` is the number with which the caller serves the session: that of the
//! connection, or that of its seat. `setting` has what all sessions share: the runtime, the allocator, and the desk,
//! which decides acts, the requests for events. `held` is the buffer of the replies that aren't written yet.
ghost use Rattle.std.specs.Prelude.{◌≡◌, ◌<◌, ◌≤◌, [], None, IfOk, IfSome, IsTrue, length, vec_capacity};
ghost use Rattle.std.specs.Io.KnownBytes.{prepend_known};
ghost use Rattle.mml_lines.specs.LinesOf.{IsWithinLimit};
ghost use Rattle.mml_lines.specs.declared.lines.TheConstants.{READ_SIZE};
ghost use Rattle.mml_lines.specs.LinesState.{bytes_ahead, fresh};
ghost use Rattle.mml_lab.specs.Rosters.{IsPrincipal};
ghost use Rattle.mml_session.specs.Turns.{standing, is_bye, is_hello};
ghost use Rattle.mml_session.specs.Ends.{Ended};
ghost use Rattle.mml_session.specs.Records.{EndedRecorded};
ghost use Rattle.mml_session.specs.Holding.{LetsOut};
ghost use Rattle.mml_session.specs.declared.held.TheConstants.{HELD_BYTES};
ghost use Rattle.mml_session.specs.Serving.{SendsReply, ServesLine, ServesNext, Tells, next_after, sent_of};
ghost use Rattle.mml_codec.specs.Replies.{IsAbout};

use crate::answering::answer_into;
use crate::gate::Gate;
use crate::held::Held;
use crate::observer::{Gated, NoObserver, Observer};
use crate::session_types::{SessionOf, SessionTypes};
use crate::setting::Setting;
use mml_codec::{LineScratch, MAX_REQUEST, REPLY_ROOM, Reply, append_reply, tell_reply};
use mml_ids::Memory;
use mml_journal::Sink;
use mml_lab::Who;
use mml_lines::{Lines, Step, WriteFault};
use mml_window::{Closed, Desk, House, Window};
use std::alloc::Global;
use std::io::{Read, Write};
use std::sync::Wait;

/// How a session ended.
#[derive(Clone, Copy, PartialEq, Eq)]
pub enum SessionEnd {
    /// The last reply was to a bye.
    Bye,
    /// The reader is at its end.
    End,
    /// A read failed, or one more was needed after as many reads as a session may make.
    ReadFault,
    /// A write failed, or wrote nothing.
    WriteFault,
    /// More bytes than a request may have came without a newline.
    TooLong,
    /// The window shows nothing any more.
    Closed,
    /// Memory ran out before anything was read.
    Memory,
}

/// How a session ended, and who had said hello in it, if anybody had. If the session ended by its last line (a bye, or
/// a line whose reply couldn't be written), `who` is who was known before that line.
#[derive(Clone, Copy, PartialEq, Eq)]
pub struct Ending {
    pub end: SessionEnd,
    pub who: Option<Who>,
}

/// Answers the lines of `reader` one by one through a window, writes the replies to `writer`, and returns how the
/// session ended. Replies are buffered, and all are written before the reader is read again. If a write fails, all
/// replies of earlier flushes were written whole, and only lines of the last flush can be missing. A granted event
/// stays granted even if its reply can't be written. `gate` may pause the session, and is called with the number
/// `connection`.
pub fn serve_one<Rt: Wait, S: Sink + Drop, H: House, R: Read, W: Write, G: Gate>(
    rt: &Rt,
    alloc: Global,
    desk: &Desk<S, H>,
    window: &mut Window<H>,
    reader: &mut R,
    writer: &mut W,
    gate: &G,
    connection: u8,
) -> SessionEnd
    ensures ended { Ended result H.lab window.old window.new
        (R.remaining reader.old) (R.remaining reader.new)
        (W.contents writer.old) (W.contents writer.new) }
    ensures untouched { result ≡ SessionEnd.Memory →
        (reader.new ≡ reader.old) × (writer.new ≡ writer.old) }
{
    let setting = Setting { rt, alloc, desk };
    let mut observer = Gated {
        gate,
        observer: NoObserver,
    };
    serve_observed::<SessionOf<Rt, S, R, W>, _, _>(
        &setting,
        window,
        reader,
        writer,
        connection,
        &mut observer,
    ).end
}

/// Answers the lines of a reader one by one, as `serve_one` does. Returns how the session ended, and who was known, as
/// `Ending` says. Calls `observer`, with the number `connection`, when a line has come, when it is answered, when
/// replies are written, and at the session's end. Doesn't call it if memory runs out before the session begins.
pub fn serve_observed<Y: SessionTypes, H: House, O: Observer>(
    setting: &Setting<'_, Y::Runtime, Y::Sink, H>,
    window: &mut Window<H>,
    reader: &mut Y::Reader,
    writer: &mut Y::Writer,
    connection: u8,
    observer: &mut O,
) -> Ending
    ensures ended { EndedRecorded result.end result.who connection H.lab window.old window.new
        (Y.Reader.remaining reader.old) (Y.Reader.remaining reader.new)
        (Y.Writer.contents writer.old) (Y.Writer.contents writer.new)
        (O.kept observer.old) (O.kept observer.new) }
    ensures untouched { result.end ≡ SessionEnd.Memory →
        (reader.new ≡ reader.old) × (writer.new ≡ writer.old) }
{
    let Ok(mut session) = Session::new(setting.alloc, connection) else {
        return Ending {
            end: SessionEnd::Memory,
            who: None,
        };
    };
    let mut before = None;
    loop {
        let who = session.known;
        let next = serve_next::<Y, H, O>(setting, &mut session, window, reader, writer, observer);
        match next {
            Next::Served => before = who,
            Next::Ended(end) => {
                let ending = Ending { end, who };
                let ending = let_out(&mut session, ending, before, writer, observer);
                let seen = window.seen_count();
                observer.left(connection, &ending, seen);
                // A call of `drop` keeps the proof short.
                drop(session);
                return ending;
            }
        }
    }
}

// The state of a session: the number of its connection, who is known on it, its line reader, and the buffered replies.
// The state also has memory for reading a line and for a long reply.
#[derive(Drop)]
struct Session {
    connection: u8,
    known: Option<Who>,
    lines: Lines,
    scratch: LineScratch,
    reply: Vec<u8>,
    held: Held,
}

impl Session {
    /// Returns the session of the connection with this number. Nobody is known in it, no reply is buffered, and it has
    /// the memory for its lines and short replies. Returns `Memory` if memory runs out.
    fn new(alloc: Global, connection: u8) -> Result<Session, Memory>
        ensures number { IfOk result (λ session. session.connection ≡ connection) }
        ensures nobody { IfOk result (λ session. session.known ≡ None) }
        ensures lines { IfOk result (λ session. session.lines ≡ fresh MAX_REQUEST) }
        ensures room { IfOk result (λ session. REPLY_ROOM ≤ vec_capacity session.reply) }
        ensures nothing_held { IfOk result (λ session. session.held.bytes.items ≡ []) }
    {
        Ok(Session {
            connection,
            known: None,
            lines: Lines::new(alloc, MAX_REQUEST)?,
            scratch: LineScratch::new(alloc, MAX_REQUEST)?,
            reply: Vec::with_capacity(alloc, REPLY_ROOM)?,
            held: Held::new(alloc)?,
        })
    }
}

// What happens after the attempt to read and answer a line.
#[derive(Clone, Copy)]
enum Next {
    // The line was answered, and the session goes on.
    Served,
    // The session ended, by that line or without one.
    Ended(SessionEnd),
}

/// Reads the next line of a session that hasn't ended, and answers it. If the reader has to be read for the line, no
/// reply may be buffered. Returns `Served` if the session goes on, or how it ended.
fn serve_next<Y: SessionTypes, H: House, O: Observer>(
    setting: &Setting<'_, Y::Runtime, Y::Sink, H>,
    session: &mut Session,
    window: &mut Window<H>,
    reader: &mut Y::Reader,
    writer: &mut Y::Writer,
    observer: &mut O,
) -> Next
    requires going { session.old.lines.ending ≡ None }
    requires limit { session.old.lines.limit ≡ MAX_REQUEST }
    requires room { REPLY_ROOM ≤ vec_capacity session.old.reply }
    requires principal { IfSome session.old.known (IsPrincipal H.lab.roster) }
    requires few { length session.old.lines.unread < READ_SIZE }
    // No reply is buffered when the reader is read.
    requires out { IsWithinLimit session.old.lines.limit session.old.lines.unread
        → session.old.held.bytes.items ≡ [] }
    ensures few { result ≡ Next.Served → length session.new.lines.unread < READ_SIZE }
    ensures out { result ≡ Next.Served
        → IsWithinLimit session.new.lines.limit session.new.lines.unread
        → session.new.held.bytes.items ≡ [] }
    ensures within { result ≡ Next.Served → length session.new.held.bytes.items ≤ HELD_BYTES }
    ensures going { result ≡ Next.Served → session.new.lines.ending ≡ None }
    ensures number { session.new.connection ≡ session.old.connection }
    ensures limit { session.new.lines.limit ≡ MAX_REQUEST }
    ensures room { REPLY_ROOM ≤ vec_capacity session.new.reply }
    ensures principal { IfSome session.new.known (IsPrincipal H.lab.roster) }
    // After each line, fewer bytes can still come, since the number of reads is limited.
    ensures progress { result ≡ Next.Served →
        bytes_ahead session.new.lines < bytes_ahead session.old.lines }
    ensures serves { ServesNext result session.old.connection H.lab (standing session.old.known window.old)
        (standing session.new.known window.new)
        (prepend_known session.old.lines.unread (Y.Reader.remaining reader.old))
        session.new.lines.unread (Y.Reader.remaining reader.new)
        session.old.held.bytes.items session.new.held.bytes.items
        (Y.Writer.contents writer.old) (Y.Writer.contents writer.new)
        (O.kept observer.old) (O.kept observer.new) }
{
    match session.lines.next(reader) {
        Step::Line => {
            observer.came(session.connection, session.lines.bytes());
            let said = serve_line::<Y, H, O>(setting, session, window, writer, observer);
            go_on(said, &mut session.held, observer, session.connection)
        }
        Step::TooLong => Next::Ended(SessionEnd::TooLong),
        Step::End => Next::Ended(SessionEnd::End),
        Step::ReadFault => Next::Ended(SessionEnd::ReadFault),
    }
}

/// Returns whether the session goes on after a line, or how it ended. `said` is what happened to the line's reply, or
/// `Closed` if the line has none. If the reply was written or buffered, calls `count_told`, which counts it in
/// `held.replies` and may call the observer. If a write failed, sets this count to 0, so that the observer counts none
/// of these replies as written.
fn go_on<O: Observer>(
    said: Result<Sent, Closed>,
    held: &mut Held,
    observer: &mut O,
    connection: u8,
) -> Next
    ensures next { result ≡ next_after said }
    ensures held { held.new.bytes.items ≡ held.old.bytes.items }
    ensures kept { O.kept observer.new ≡ O.kept observer.old }
{
    match said {
        Ok(Sent::Told) => {
            count_told(held, observer, connection);
            Next::Served
        }
        Ok(Sent::Bye) => {
            count_told(held, observer, connection);
            Next::Ended(SessionEnd::Bye)
        }
        Ok(Sent::Unwritten(_)) => {
            held.replies = 0;
            Next::Ended(SessionEnd::WriteFault)
        }
        Err(Closed) => Next::Ended(SessionEnd::Closed),
    }
}

/// Counts one more reply that is written or buffered. Then, if no reply is buffered, calls the observer's `wrote` with
/// the count, and sets the count to 0.
fn count_told<O: Observer>(held: &mut Held, observer: &mut O, connection: u8)
    ensures held { held.new.bytes.items ≡ held.old.bytes.items }
    ensures kept { O.kept observer.new ≡ O.kept observer.old }
{
    held.replies = held.replies.saturating_add(1);
    pass_told(held, observer, connection);
}

/// If the buffer is empty, so that all counted replies are written, calls the observer's `wrote` with their number, and
/// sets the count to 0. Otherwise does nothing.
fn pass_told<O: Observer>(held: &mut Held, observer: &mut O, connection: u8)
    ensures held { held.new.bytes.items ≡ held.old.bytes.items }
    ensures kept { O.kept observer.new ≡ O.kept observer.old }
{
    if held.bytes.is_empty() {
        observer.wrote(connection, held.replies);
        held.replies = 0;
    }
}

/// Writes the buffered replies at the end of a session. Then calls the observer's `wrote` with the count in
/// `held.replies`, even if that is 0, sets the count to 0, and returns `ending`. If the write fails, doesn't call the
/// observer, and returns an end by `WriteFault` with `before`, which is who was known before the line that was answered
/// last.
fn let_out<W: Write, O: Observer>(
    session: &mut Session,
    ending: Ending,
    before: Option<Who>,
    writer: &mut W,
    observer: &mut O,
) -> Ending
    ensures lets { LetsOut ending before result session.old.held.bytes.items
        (W.contents writer.old) (W.contents writer.new) }
    ensures kept { O.kept observer.new ≡ O.kept observer.old }
{
    match session.held.let_out(writer) {
        Ok(()) => {
            pass_told(&mut session.held, observer, session.connection);
            ending
        }
        Err(_) => Ending {
            end: SessionEnd::WriteFault,
            who: before,
        },
    }
}

// What happened to the line of a reply.
#[derive(Clone, Copy)]
enum Sent {
    // The line is written, or buffered.
    Told,
    // The line is written, and is the reply to a bye.
    Bye,
    // A write failed after this many bytes of the buffered replies and of this one.
    Unwritten(usize),
}

/// Answers the line that was read last, and writes or buffers its reply. Returns what happened to the reply. Returns
/// `Closed` if the line asks for a view of a window that shows nothing any more; such a line has no reply.
fn serve_line<Y: SessionTypes, H: House, O: Observer>(
    setting: &Setting<'_, Y::Runtime, Y::Sink, H>,
    session: &mut Session,
    window: &mut Window<H>,
    writer: &mut Y::Writer,
    observer: &mut O,
) -> Result<Sent, Closed>
    requires going { session.old.lines.ending ≡ None }
    requires line { IsWithinLimit MAX_REQUEST session.old.lines.line }
    requires room { REPLY_ROOM ≤ vec_capacity session.old.reply }
    requires principal { IfSome session.old.known (IsPrincipal H.lab.roster) }
    ensures number { session.new.connection ≡ session.old.connection }
    ensures lines { session.new.lines ≡ session.old.lines }
    ensures room { REPLY_ROOM ≤ vec_capacity session.new.reply }
    ensures principal { IfSome session.new.known (IsPrincipal H.lab.roster) }
    ensures out { result ≡ Ok Sent.Told
        → IsWithinLimit session.new.lines.limit session.new.lines.unread
        → session.new.held.bytes.items ≡ [] }
    ensures within { result ≡ Ok Sent.Told → length session.new.held.bytes.items ≤ HELD_BYTES }
    ensures serves { ServesLine result session.old.connection H.lab (standing session.old.known window.old)
        (standing session.new.known window.new) session.old.lines.line
        session.old.held.bytes.items session.new.held.bytes.items
        (Y.Writer.contents writer.old) (Y.Writer.contents writer.new)
        (O.kept observer.old) (O.kept observer.new) }
{
    let mut reply = Reply::Bye;
    let line = session.lines.bytes();
    match answer_into(
        setting,
        window,
        &mut session.known,
        line,
        &mut session.scratch,
        &mut reply,
    ) {
        Ok(()) => {
            let judged = Judged {
                number: session.connection,
                seen: window.seen_count(),
                line,
                is_next_unknown: session.lines.needs_read(),
            };
            Ok(tell(
                setting.alloc,
                window,
                judged,
                reply,
                &mut session.held,
                &mut session.reply,
                writer,
                observer,
            ))
        }
        Err(closed) => {
            // A call of `drop` keeps the proof short.
            drop(reply);
            Err(closed)
        }
    }
}

// A line that was answered, and what is needed to record and send its reply.
#[derive(Clone, Copy)]
struct Judged<'a> {
    // The number of the session's connection, or of its seat.
    number: u8,
    // How many events the window had seen when the line was answered.
    seen: u64,
    /// The line, without its newline.
    line: &'a [u8],
    // Whether the next line isn't complete yet, so that the reader must be read, and all replies must be written
    // before.
    is_next_unknown: bool,
}

/// Calls the observer with the line in `judged` and its reply, and writes the reply or buffers it in `held`. A short
/// reply is built in this buffer. A long one is built in `out`; if memory runs out for it, the refusal `memory` is
/// sent instead. `out` must have memory for `REPLY_ROOM` bytes, and the reply may name only nodes and participants of
/// the window's lab. Returns what happened to the reply.
fn tell<H: House, W: Write, O: Observer>(
    alloc: Global,
    window: &Window<H>,
    judged: Judged<'_>,
    reply: Reply,
    held: &mut Held,
    out: &mut Vec<u8>,
    writer: &mut W,
    observer: &mut O,
) -> Sent
    requires room { REPLY_ROOM ≤ vec_capacity out.old }
    requires about { IsAbout H.lab.ids H.lab.roster reply }
    ensures room { REPLY_ROOM ≤ vec_capacity out.new }
    ensures out { IsTrue judged.entry.is_next_unknown → held.new.bytes.items ≡ [] }
    ensures within { length held.new.bytes.items ≤ HELD_BYTES }
    ensures tells { Tells result judged.entry.number H.lab judged.entry.seen judged.entry.line.now reply
        held.old.bytes.items held.new.bytes.items
        (W.contents writer.old) (W.contents writer.new)
        (O.kept observer.old) (O.kept observer.new) }
{
    let start = held.bytes.len();
    if append_reply(window.ids(), window.roster(), &reply, &mut held.bytes) {
        let (_, line) = held.bytes.as_slice().split_at(start);
        observer.answered(judged.number, judged.seen, judged.line, &reply, line);
        let sent = send_held(&reply, held, judged.is_next_unknown, writer);
        // A call of `drop` keeps the proof short.
        drop(reply);
        return sent;
    }
    let told = tell_reply(alloc, window.ids(), window.roster(), reply, out);
    observer.answered(judged.number, judged.seen, judged.line, &told, out);
    let sent = send(&told, out, held, judged.is_next_unknown, writer);
    drop(told);
    sent
}

/// Appends the line of a reply to the buffered ones. Writes all if `at_once` is set, after a `bye`, or if the buffer
/// has no room for the line. Returns what happened to the reply.
fn send<W: Write>(
    reply: &Reply,
    line: &[u8],
    held: &mut Held,
    at_once: bool,
    writer: &mut W,
) -> Sent
    ensures sends { SendsReply result reply.now line.now
        held.old.bytes.items held.new.bytes.items
        (W.contents writer.old) (W.contents writer.new) }
    ensures out { IsTrue at_once → held.new.bytes.items ≡ [] }
    ensures within { length held.new.bytes.items ≤ HELD_BYTES }
{
    let is_last = is_bye(reply);
    sent_of(held.put(line, at_once || is_last, writer), is_last)
}

/// Writes the buffered replies, of which `reply` is the last, if `at_once` is set, after a `bye`, or when there are
/// more than `HELD_BYTES`. Returns what happened to the reply.
fn send_held<W: Write>(reply: &Reply, held: &mut Held, at_once: bool, writer: &mut W) -> Sent
    ensures sends { SendsReply result reply.now held.old.bytes.items
        [] held.new.bytes.items
        (W.contents writer.old) (W.contents writer.new) }
    ensures out { IsTrue at_once → held.new.bytes.items ≡ [] }
    ensures within { length held.new.bytes.items ≤ HELD_BYTES }
{
    let is_last = is_bye(reply);
    sent_of(held.let_out_when_due(at_once || is_last, writer), is_last)
}

/// Returns what happened to a reply. `came` is the result of writing or buffering it. `is_last` is whether it is the
/// reply to a bye.
fn sent_of(came: Result<(), WriteFault>, is_last: bool) -> Sent
    ensures { result ≡ sent_of came is_last }
{
    match came {
        Ok(()) => { if is_last { Sent::Bye } else { Sent::Told } }
        Err(fault) => Sent::Unwritten(fault.written),
    }
}

/// Returns whether a reply grants a hello: it names who is known from then on.
pub fn is_hello(reply: &Reply) -> bool
    ensures { result ≡ is_hello reply.now }
{
    matches!(reply, Reply::Hello(_))
}

/// Returns whether a reply is the one to a bye, which is the last of its session.
pub fn is_bye(reply: &Reply) -> bool
    ensures { result ≡ is_bye reply.now }
{
    matches!(reply, Reply::Bye)
}
