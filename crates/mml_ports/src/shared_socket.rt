//! A connection's socket: one descriptor, which the connection's reader, its writer and its cut-off share.
//!
//! A cut-off is the means by which another thread ends the connection. The host has two ports: the desk, which is the
//! teacher's, and the students' port. A seat is a part of the server that serves one connection after another.
use crate::end_reason::EndReason;
use mml_codec::{Request, read_request};
use std::alloc::Global;
use std::net::{Shutdown, TcpStream};
use std::sync::atomic::{AtomicBool, AtomicU64, Ordering};
use std::sync::{Condvar, CondvarTimeouts, Mutex, RwLock, Wait};
use std::time::{Clock, Duration};

// How many hellos of a connection may be denied before the connection is ended.
const DENIALS: u64 = 3;

// How many bytes are checked of what a newcomer (a connection that waits for a seat) has sent.
const PEEK_SIZE: usize = 512;

/// What a newcomer has sent so far.
#[derive(Clone, Copy, PartialEq, Eq)]
pub(crate) enum Peeked {
    /// No whole line.
    Nothing,
    /// A line that isn't a hello.
    Line,
    /// A hello, whose name and key weren't checked yet.
    Hello,
}

/// The socket of a connection, and what the threads that share it have noted. When the connection is closed, its stream
/// is taken out, and from then on each read and each write fails.
#[derive(Drop)]
pub struct SharedSocket {
    /// The number of the connection among those of its port.
    pub number: u64,
    pub(crate) stream: RwLock<Option<TcpStream>>,
    // Whether the connection's session has begun to read, so that the connection is served.
    pub(crate) is_served: AtomicBool,
    // Whether a hello was granted.
    pub(crate) is_greeted: AtomicBool,
    // Whether this is a connection at the desk, and the teacher's hello was granted on it.
    pub(crate) is_teachers: AtomicBool,
    // Whether the connection is no stranger any more: a hello was granted, and at the desk the teacher's.
    pub(crate) may_stay: AtomicBool,
    // Whether the reply to the teacher's bye at the desk is made. The next bytes to write then end with this reply, the
    // last one of the class.
    pub(crate) is_farewell: AtomicBool,
    // Whether a reply was sent.
    pub(crate) is_answered: AtomicBool,
    // Whether a line was answered since the reader last read.
    pub(crate) is_line_answered: AtomicBool,
    // How many hellos of the connection were denied.
    denied: AtomicU64,
    // Whether the next reply to write is the denial of a hello.
    is_denial_next: AtomicBool,
    // Whether the connection's own thread is writing. If so, a thread that ends the connection breaks off the write.
    is_writing: AtomicBool,
    // Whether another thread is ending the connection.
    is_ending: AtomicBool,
    end_reason: Mutex<Option<EndReason>>,
    // A thread that delays a denial waits here until another thread ends the connection.
    ending: Condvar,
}

impl SharedSocket {
    /// Returns a shared socket over this stream, before anything was read. `number` is the connection's number among
    /// those of its port.
    pub fn new(stream: TcpStream, number: u64) -> SharedSocket {
        SharedSocket {
            number,
            stream: RwLock::new(Some(stream)),
            is_served: AtomicBool::new(false),
            is_greeted: AtomicBool::new(false),
            is_teachers: AtomicBool::new(false),
            may_stay: AtomicBool::new(false),
            is_farewell: AtomicBool::new(false),
            is_answered: AtomicBool::new(false),
            is_line_answered: AtomicBool::new(false),
            denied: AtomicU64::new(0),
            is_denial_next: AtomicBool::new(false),
            is_writing: AtomicBool::new(false),
            is_ending: AtomicBool::new(false),
            end_reason: Mutex::new(None),
            ending: Condvar::new(),
        }
    }

    /// Keeps `why` as the reason why the connection is ended. Does nothing if there is a reason already.
    pub(crate) fn note_end_reason<Rt: Wait>(&self, rt: &Rt, why: EndReason) {
        let mut reason = self.end_reason.lock(rt);
        if reason.is_none() {
            *reason = Some(why);
        }
    }

    /// Returns the reason why the connection is ended, or `None` if none was kept yet.
    pub(crate) fn end_reason<Rt: Wait>(&self, rt: &Rt) -> Option<EndReason> {
        *self.end_reason.lock(rt)
    }

    /// Makes reads and writes of the socket blocking if `is_waiting` is set, and otherwise non-blocking. Returns
    /// whether that succeeded: `false` if the stream was taken out, or the system refuses. Called only before the
    /// connection is served: `peek` needs reads that don't block.
    pub(crate) fn set_waiting<Rt: Wait>(&self, rt: &Rt, is_waiting: bool) -> bool {
        let stream = self.stream.read(rt);
        match &*stream {
            Some(stream) => stream.set_nonblocking(!is_waiting).is_ok(),
            None => false,
        }
    }

    /// Returns what the other side has sent, judged by its first 512 bytes, which stay in the socket. Returns `Nothing`
    /// if the stream was taken out, or can't be checked. The socket's reads must be non-blocking.
    pub(crate) fn peek<Rt: Wait>(&self, rt: &Rt, alloc: Global) -> Peeked {
        let stream = self.stream.read(rt);
        match &*stream {
            Some(stream) => peek_at(stream, alloc),
            None => Peeked::Nothing,
        }
    }

    /// Returns whether the reason why the connection is ended is that there is no seat for it.
    pub(crate) fn is_turned_away<Rt: Wait>(&self, rt: &Rt) -> bool {
        matches!(self.end_reason(rt), Some(EndReason::Busy))
    }

    /// Ends the connection from another thread than its own. `why` becomes the reason unless there is one already.
    /// Nothing more is read, no reply begins to be written, and a write that is under way is broken off. If no write is
    /// under way, the writing side stays open, so that the connection's own thread can still send the reason.
    pub(crate) fn end_with<Rt: Wait>(&self, rt: &Rt, why: EndReason) {
        self.begin_end(rt, why);
        let how = if self.is_writing.load(Ordering::SeqCst) {
            Shutdown::Both
        } else {
            Shutdown::Read
        };
        let stream = self.stream.read(rt);
        if let Some(stream) = &*stream {
            // The call fails if the other side is gone.
            let _ = stream.shutdown(how);
        }
    }

    /// Keeps `why` as the reason, unless there is one already. Notes that the connection is being ended, and wakes a
    /// thread that waits in `wait_for_end`. Holds the lock on the reason all the time, so that the woken thread finds
    /// the reason.
    fn begin_end<Rt: Wait>(&self, rt: &Rt, why: EndReason) {
        let mut reason = self.end_reason.lock(rt);
        if reason.is_none() {
            *reason = Some(why);
        }
        self.is_ending.store(true, Ordering::SeqCst);
        self.ending.notify_all();
    }

    /// Waits until another thread ends the connection, but for no longer than `time`.
    pub(crate) fn wait_for_end<Rt: Wait + Clock>(&self, rt: &Rt, time: Duration) {
        let _ended = self
            .ending
            .wait_timeout_while(rt, self.end_reason.lock(rt), time, |_| {
                !self.is_ending.load(Ordering::SeqCst)
            });
    }

    /// Notes that a write begins. Returns whether it may begin: `false` if another thread is ending the connection. The
    /// note comes before the check: if `end_with` is called after the check, it finds the note, and breaks off the
    /// write.
    pub(crate) fn begin_write(&self) -> bool {
        self.is_writing.store(true, Ordering::SeqCst);
        !self.is_ending.load(Ordering::SeqCst)
    }

    /// Notes that no write is under way: it has ended, or wasn't allowed to begin.
    pub(crate) fn end_write(&self) {
        self.is_writing.store(false, Ordering::SeqCst);
    }

    /// Counts a hello of the connection that was denied, and notes that the denial is the next reply to write.
    pub(crate) fn note_denial(&self) {
        self.denied.fetch_add(1, Ordering::SeqCst);
        self.is_denial_next.store(true, Ordering::SeqCst);
    }

    /// Returns whether the next reply to write is the denial of a hello, as `note_denial` has noted. Deletes the note,
    /// so that each denial is delayed once.
    pub(crate) fn take_denial(&self) -> bool {
        self.is_denial_next.swap(false, Ordering::SeqCst)
    }

    /// Returns whether a hello of the connection was denied.
    pub(crate) fn was_denied(&self) -> bool {
        self.denied.load(Ordering::SeqCst) > 0
    }

    /// Returns whether nothing more is to be read: another thread is ending the connection, or too many hellos were
    /// denied.
    pub(crate) fn is_done(&self) -> bool {
        self.is_ending.load(Ordering::SeqCst) || self.denied.load(Ordering::SeqCst) >= DENIALS
    }
}

/// Returns what has come from the other side of `stream`, judged by its first 512 bytes, which stay in the socket. The
/// stream's reads must be non-blocking. Returns `Nothing` if these bytes contain no whole line, or the system refuses
/// the check. If memory runs out, a hello counts as any other line.
fn peek_at(stream: &TcpStream, alloc: Global) -> Peeked {
    let mut seen = [0; PEEK_SIZE];
    let Ok(count) = stream.peek(&mut seen) else {
        return Peeked::Nothing;
    };
    let come = &seen[..count.min(PEEK_SIZE)];
    let Some(end) = come.iter().position(|byte| *byte == b'\n') else {
        return Peeked::Nothing;
    };
    match read_request(alloc, &come[..end]) {
        Ok(Request::Hello { .. }) => Peeked::Hello,
        _ => Peeked::Line,
    }
}
