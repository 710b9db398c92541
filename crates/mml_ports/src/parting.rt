//! Connections that have left their seats (or never had one) and aren't closed yet.
//!
//! A seat is a part of the server that serves one connection after another. The turn of a denial is the time before
//! which it isn't sent.
use crate::end_reason::EndReason;
use std::alloc::Global;
use std::collections::VecDeque;
use std::io::{ErrorKind, Read, Write};
use std::net::{Shutdown, TcpStream};
use std::sync::{Mutex, Wait};
use std::thread;
use std::time::{Clock, Duration, Instant};

/// The reply to a hello whose name and key don't match.
pub(crate) const UNKNOWN: &[u8] =
    b"{\"clause\":2,\"deny\":\"unknown\",\"text\":\"name and key do not match\"}\n";

/// How many milliseconds the other side has to read what was sent, before its connection is closed.
pub(crate) const PARTING: u64 = 20;

// The most bytes of what the other side sent that are read before its connection is closed.
const PARTING_SIZE: usize = 4096;

// If as many connections as this are waiting to be closed, the oldest one that was sent everything is closed early. So
// a flood of connections doesn't use up the descriptors.
const MANY_PARTINGS: usize = 64;

// A connection that has left its seat, or never had one, and is to be closed.
#[derive(Drop)]
struct Parting {
    stream: TcpStream,
    // When the next step is due: sending its denial, or, if everything was sent, closing it.
    next: Instant,
    // Whether everything was sent, so that the connection only has to be closed.
    is_sent: bool,
}

impl Parting {
    /// Does the next step for the connection if the step is due at the time `now`, and otherwise returns the connection
    /// unchanged. If everything was sent, closes the connection, and returns `None`. If its denial is still to be sent,
    /// sends the denial and the line of `Busy`, and shuts down its writing side. Then returns the connection, to be
    /// closed later, or `None` if `closing` has closed it already.
    fn step(self, now: Instant) -> Option<Parting> {
        if now < self.next {
            return Some(self);
        }
        let stream = self.stream;
        if self.is_sent {
            let _may_send = drain(&stream);
            return None;
        }
        send_line(&stream, UNKNOWN);
        send_line(&stream, EndReason::Busy.line());
        closing(stream, now)
    }
}

/// Shuts down the writing side of a non-blocking stream, and drops what the other side sent. Returns the connection,
/// which is to be closed `PARTING` milliseconds after `now`. Closes the stream at once, and returns `None`, if the
/// other side has shut down its writing side or is gone, or the clock can't represent that time.
fn closing(stream: TcpStream, now: Instant) -> Option<Parting> {
    // The shutdown fails if the other side is gone.
    if stream.shutdown(Shutdown::Write).is_err() || !drain(&stream) {
        return None;
    }
    let next = now.checked_add(Duration::from_millis(PARTING))?;
    Some(Parting {
        stream,
        next,
        is_sent: true,
    })
}

/// Returns the index of the first connection in the list to which everything was sent, or `None` if there is none.
fn first_sent(all: &VecDeque<Parting>) -> Option<usize> {
    for index in 0..all.len() {
        if let Some(parting) = all.get(index)
            && parting.is_sent
        {
            return Some(index);
        }
    }
    None
}

/// Writes a line, or as much of it as the other side takes within the stream's write timeout. Ignores errors.
pub(crate) fn send_line(stream: &TcpStream, line: &[u8]) {
    let mut stream = stream;
    let _ = stream.write(line);
}

/// Reads and drops up to `PARTING_SIZE` bytes of what the other side sent. Without this, closing the socket would
/// discard the bytes that the system has still to send. Waits for at most the stream's read timeout. Returns whether
/// the other side may send more: `false` if it has shut down its writing side, is gone, or the read was interrupted.
pub(crate) fn drain(stream: &TcpStream) -> bool {
    let mut stream = stream;
    let mut unwanted = [0; PARTING_SIZE];
    match stream.read(&mut unwanted) {
        Ok(count) => count > 0,
        Err(error) => error.kind() == ErrorKind::WouldBlock,
    }
}

/// The connections that have left a port and aren't closed yet. Some of them are still to be sent the denial of their
/// hello. The other ones were sent everything, and get some milliseconds to read it. No function of this type waits for
/// the other side to read or send.
#[derive(Drop)]
pub struct Partings {
    all: Mutex<VecDeque<Parting>>,
}

impl Partings {
    /// Returns an empty list, for a port that nobody has left yet.
    pub fn new(alloc: Global) -> Partings {
        Partings {
            all: Mutex::new(VecDeque::new(alloc)),
        }
    }

    /// Returns whether all connections that have left are closed.
    pub fn is_empty<Rt: Wait>(&self, rt: &Rt) -> bool {
        self.all.lock(rt).is_empty()
    }

    /// Adds a connection that has left its seat, to send it the denial of its hello at the time `turn`. If memory runs
    /// out, or the system can't make the stream non-blocking, closes the connection without sending the denial.
    pub fn add_denied<Rt: Wait>(&self, rt: &Rt, stream: TcpStream, turn: Instant) {
        if stream.set_nonblocking(true).is_err() {
            return;
        }
        let parting = Parting {
            stream,
            next: turn,
            is_sent: false,
        };
        let _ = self.all.lock(rt).push_back(parting);
    }

    /// Sends a connection the line of `why`, the reason why it ends, if there is one, or as much of the line as the
    /// other side takes at once. Shuts down the writing side, and adds the connection to the list, so that the other
    /// side has time to read. Closes the connection at once if the other side has shut down its writing side or is
    /// gone. Also does so if memory runs out, the clock fails, or the system can't make the stream non-blocking.
    pub fn add_ending<Rt: Wait + Clock>(&self, rt: &Rt, stream: TcpStream, why: Option<EndReason>) {
        if stream.set_nonblocking(true).is_err() {
            return;
        }
        if let Some(why) = why {
            send_line(&stream, why.line());
        }
        if let Ok(now) = Instant::now(rt)
            && let Some(parting) = closing(stream, now)
        {
            self.add_sent(rt, parting);
        }
    }

    /// Adds a connection to which everything was sent, until it is due to be closed. If the list has `MANY_PARTINGS` or
    /// more connections already, first closes the oldest one to which everything was sent. If memory runs out, closes
    /// the new one at once.
    fn add_sent<Rt: Wait>(&self, rt: &Rt, parting: Parting) {
        let mut all = self.all.lock(rt);
        if all.len() >= MANY_PARTINGS
            && let Some(index) = first_sent(&all)
        {
            drop(all.remove(index));
        }
        let _ = all.push_back(parting);
    }

    /// Sends the denials that are due, and closes the connections that had time to read. Doesn't wait, and does nothing
    /// if the clock fails.
    pub fn send_due<Rt: Wait + Clock>(&self, rt: &Rt) {
        let mut all = self.all.lock(rt);
        if all.is_empty() {
            return;
        }
        let Ok(now) = Instant::now(rt) else {
            return;
        };
        // Goes once around the list: each connection is taken from the front, and put back at the end if it stays.
        for _ in 0..all.len() {
            if let Some(first) = all.pop_front()
                && let Some(parting) = first.step(now)
            {
                // The connection fits into the list, since it was in it before.
                let _ = all.push_back(parting);
            }
        }
    }

    /// Closes all connections to which everything was sent, before they are due, to free their descriptors.
    pub fn close_sent<Rt: Wait>(&self, rt: &Rt) {
        let mut all = self.all.lock(rt);
        for _ in 0..all.len() {
            if let Some(first) = all.pop_front() {
                if first.is_sent {
                    let _may_send = drain(&first.stream);
                } else {
                    // The connection fits into the list, since it was in it before.
                    let _ = all.push_back(first);
                }
            }
        }
    }

    /// Closes all connections, because the class has ended. Sends the line that says so (that of `EndReason::Over`) to
    /// those that still wait for a denial. Waits for `PARTING` milliseconds before closing, so that all have time to
    /// read.
    pub fn close_all<Rt: Wait + Clock>(&self, rt: &Rt) {
        let mut all = self.all.lock(rt);
        if all.is_empty() {
            return;
        }
        for index in 0..all.len() {
            if let Some(parting) = all.get(index)
                && !parting.is_sent
            {
                send_line(&parting.stream, EndReason::Over.line());
                let _ = parting.stream.shutdown(Shutdown::Write);
            }
        }
        thread::sleep(rt, Duration::from_millis(PARTING));
        for _ in 0..all.len() {
            if let Some(parting) = all.pop_front() {
                let _may_send = drain(&parting.stream);
            }
        }
    }
}
