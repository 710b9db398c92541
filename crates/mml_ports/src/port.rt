//! A host's port, which accepts connections and chooses the next to be served. Contracts say nothing about the bytes of
//! sockets.
//!
//! A seat is a part of the server that serves one connection after another. A newcomer is a connection that waits for a
//! seat, and a guest is one that has a seat. The crowd of a port has the list of its guests, and its partings: the
//! connections that have left their seats and aren't closed yet. The host's state is what its threads have noted. The
//! host has two ports: the desk, which is the teacher's, and the students' port.
use crate::connection::SharedConnection;
use crate::crowd::Crowd;
use crate::end_reason::EndReason;
use crate::shared_socket::{Peeked, SharedSocket};
use crate::socket_reader::{Incoming, SocketReader};
use crate::socket_replies::SocketReplies;
use crate::socket_writer::{ReplyWriter, SocketCutOff, WRITE_LIMIT};
use crate::state::HostState;
use mml_hosting::{Accept, Accepted, Bell};
use mml_serving::HangUp;
use std::alloc::Global;
use std::collections::VecDeque;
use std::io::{Error, ErrorKind};
use std::net::{Net, SocketAddr, TcpListener, TcpStream};
use std::sync::{Arc, Mutex, Wait};
use std::time::{Clock, Duration, Instant};
use std::{io, thread};

// How many milliseconds a new connection waits for a seat.
const SEAT_TIMEOUT: u64 = 500;

// How many new connections may wait at a time.
const WAITING: usize = 16;

// How many milliseconds a new connection has to send its first line, before it counts as silent.
const SILENCE: u64 = 5;

// How often the host tries to connect to its own port, to wake the thread that waits in an accept there.
const WAKE_TRIES: u32 = 50;

// How many milliseconds the host waits for each of these connections.
const WAKE_TIMEOUT: u64 = 100;

// A newcomer: a connection that was accepted, and waits for a seat.
#[derive(Drop)]
struct Newcomer<'a, Rt> {
    reader: Incoming<'a, Rt>,
    writer: ReplyWriter<'a, Rt>,
    cut_off: SocketCutOff<'a, Rt>,
    connection: SharedConnection<'a, Rt>,
    since: Instant,
    // Whether the newcomer was checked already. The first check makes its socket's reads non-blocking.
    is_looked_at: bool,
    // What the newcomer has sent, as far as the checks have found.
    peeked: Peeked,
}

impl<'a, Rt: Clock + Wait + Eprint> Newcomer<'a, Rt> {
    /// Ends the newcomer's connection. The reason for the end is `why`, unless the connection has one already. The
    /// port's partings send the reason at once, and close the connection some milliseconds later.
    fn turn_away(self, why: EndReason) {
        let mut newcomer = self;
        newcomer.connection.note_end_reason(why);
        newcomer.writer.hang_up();
    }

    /// Returns what the newcomer has sent, without taking it from the socket. Once a line is found, the socket isn't
    /// checked any more. The first check makes the socket's reads non-blocking. If the system refuses that, returns
    /// `Nothing`.
    fn peek(&mut self) -> Peeked {
        let SharedConnection {
            rt,
            alloc,
            socket,
            ..
        } = &self.connection;
        if !self.is_looked_at {
            self.is_looked_at = socket.set_waiting(*rt, false);
        }
        if self.is_looked_at && self.peeked == Peeked::Nothing {
            self.peeked = socket.peek(*rt, *alloc);
        }
        self.peeked
    }

    /// Returns whether the newcomer came at least `SILENCE` milliseconds ago, so that it had time to send its first
    /// line.
    fn had_time(&self, now: Instant) -> bool {
        now.duration_since(self.since) >= Duration::from_millis(SILENCE)
    }
}

/// A port, which accepts connections until the class is over. If there is no seat for a connection, it waits at most
/// half a second for one, while others are accepted.
#[derive(Drop)]
pub struct Port<'a, Rt> {
    rt: &'a Rt,
    alloc: Global,
    state: &'a HostState,
    crowd: &'a Crowd,
    is_desk: bool,
    listener: TcpListener,
    // A connection that was accepted before the port was served.
    first: Option<TcpStream>,
    // The newcomers, in the order in which they came.
    waiting: VecDeque<Newcomer<'a, Rt>>,
    // Since when newcomers have waited for a seat without a break, or `None` if none waits.
    wanted_since: Option<Instant>,
    // How many connections were accepted.
    count: u64,
}

// The result of an accept: a connection with its reader, its writer and its cut-off; or none; or the end.
type SocketAccepted<'a, Rt> = Accepted<Incoming<'a, Rt>, ReplyWriter<'a, Rt>, SocketCutOff<'a, Rt>>;

impl<'a, Rt: Clock + Wait + Eprint> Port<'a, Rt> {
    /// Returns a port to which nobody has come yet, except the connection `first`, if there is one. `is_desk` says
    /// whether it is the desk's port or the students', and `listener` accepts its connections.
    pub fn new(
        rt: &'a Rt,
        alloc: Global,
        state: &'a HostState,
        is_desk: bool,
        listener: TcpListener,
        first: Option<TcpStream>,
    ) -> Port<'a, Rt> {
        Port {
            rt,
            alloc,
            state,
            crowd: state.crowd(is_desk),
            is_desk,
            listener,
            first,
            waiting: VecDeque::new(alloc),
            wanted_since: None,
            count: 0,
        }
    }

    /// Returns whether a blocking accept would delay other work: a newcomer waits, a guest is leaving, or a connection
    /// that has left its seat isn't closed yet.
    fn is_hurried(&self) -> bool {
        !self.waiting.is_empty() || self.crowd.is_parting(self.rt)
    }

    /// Accepts the next connection, and returns it as a newcomer, which isn't in the queue yet. If the port
    /// `is_hurried`, doesn't wait, and returns the error `WouldBlock` if no connection has come. Returns another error
    /// if the system refuses a call, the clock fails, or memory runs out. A connection that was accepted before this
    /// error is closed, and nothing is sent to it.
    fn accept(&mut self) -> io::Result<Newcomer<'a, Rt>> {
        let stream = self.next_stream()?;
        // If the system refuses to send each write at once, replies are still sent, only later.
        let _ = stream.set_nodelay(true);
        stream.set_write_timeout(Some(Duration::from_secs(WRITE_LIMIT)))?;
        self.count = self.count.wrapping_add(1);
        let Ok(socket) = Arc::new(self.alloc, SharedSocket::new(stream, self.count)) else {
            return Err(Error::from(ErrorKind::OutOfMemory));
        };
        let connection = SharedConnection {
            rt: self.rt,
            alloc: self.alloc,
            state: self.state,
            crowd: self.crowd,
            is_desk: self.is_desk,
            socket,
        };
        let replies = SocketReplies::new(connection.share()?);
        let writer = ReplyWriter::new(connection.share()?, replies);
        let cut_off = SocketCutOff::new(connection.share()?);
        let reader = SocketReader::new(connection.share()?)?;
        let since = Instant::now(self.rt)?;
        Ok(Newcomer {
            reader,
            writer,
            cut_off,
            connection,
            since,
            is_looked_at: false,
            peeked: Peeked::Nothing,
        })
    }

    /// Returns the stream of the next connection: the one that was accepted before the port was served, or one that is
    /// accepted now. If the port `is_hurried`, doesn't wait for a connection, and returns the error `WouldBlock` if
    /// none has come. Returns another error if the accept fails.
    fn next_stream(&mut self) -> io::Result<TcpStream> {
        match self.first.take() {
            Some(stream) => Ok(stream),
            None => {
                self.listener.set_nonblocking(self.is_hurried())?;
                let (stream, _) = self.listener.accept()?;
                Ok(stream)
            }
        }
    }

    /// Adds a newcomer at the end of the queue for seats. If `WAITING` newcomers wait already, first turns away the one
    /// that `first_to_drop` chooses. If memory runs out, notes that in the host's state, and turns away the new one.
    fn queue(&mut self, newcomer: Newcomer<'a, Rt>) {
        if self.waiting.len() >= WAITING {
            let index = self.first_to_drop(newcomer.since);
            if let Some(dropped) = self.waiting.remove(index) {
                dropped.turn_away(EndReason::Busy);
            }
        }
        if let Err(refused) = self.waiting.push_back(newcomer) {
            self.state.note_memory(self.rt);
            refused.value.turn_away(EndReason::Busy);
        }
    }

    /// Returns the next newcomer to serve, if there is a seat for it, and otherwise `None`. If there is no seat,
    /// `Crowd::finds_room` tries to free one, and the first newcomer in the queue is turned away if it has waited for
    /// half a second. Notes in the crowd whether a newcomer waits for a seat, and in `wanted_since` since when. Also
    /// returns `None` if there are no newcomers, or the clock fails.
    fn admit_next(&mut self) -> Option<SocketAccepted<'a, Rt>> {
        let Some(first) = self.waiting.front() else {
            self.wanted_since = None;
            self.crowd.note_wanted(false);
            return None;
        };
        let now = Instant::now(self.rt).ok()?;
        let waited = now.duration_since(first.since);
        let wanted_since = match self.wanted_since {
            Some(since) => since,
            None => now,
        };
        self.wanted_since = Some(wanted_since);
        let wanted = now.duration_since(wanted_since);
        let has_room = self.crowd.finds_room(self.rt, now, wanted);
        self.crowd.note_wanted(!has_room);
        if has_room {
            return self.take_next(now);
        }
        if waited >= Duration::from_millis(SEAT_TIMEOUT)
            && let Some(first) = self.waiting.pop_front()
        {
            first.turn_away(EndReason::Busy);
        }
        None
    }

    /// Returns the index of the newcomer to turn away at the time `now` if too many wait. The first choice is the first
    /// newcomer in the queue that has sent no line although it had time for one. The second choice is the first that
    /// hasn't sent a hello, and the last choice is the first in the queue.
    fn first_to_drop(&mut self, now: Instant) -> usize {
        let mut first_without_hello = None;
        for index in 0..self.waiting.len() {
            if let Some(newcomer) = self.waiting.get_mut(index) {
                let peeked = newcomer.peek();
                if peeked == Peeked::Nothing && newcomer.had_time(now) {
                    return index;
                }
                if peeked != Peeked::Hello && first_without_hello.is_none() {
                    first_without_hello = Some(index);
                }
            }
        }
        first_without_hello.unwrap_or(0)
    }

    /// Returns the index of the newcomer to serve next. The first choice is the first newcomer in the queue that has
    /// sent a hello. The second choice is the first that has sent another line, and the last choice is the first in the
    /// queue.
    fn first_to_speak(&mut self) -> usize {
        let mut first_with_line = None;
        for index in 0..self.waiting.len() {
            if let Some(newcomer) = self.waiting.get_mut(index) {
                let peeked = newcomer.peek();
                if peeked == Peeked::Hello {
                    return index;
                }
                if peeked == Peeked::Line && first_with_line.is_none() {
                    first_with_line = Some(index);
                }
            }
        }
        first_with_line.unwrap_or(0)
    }

    /// Takes the newcomer that `first_to_speak` chooses from the queue, adds it to the crowd's guests, and returns it,
    /// to be served from `now` on. Makes its socket's reads blocking again if `peek` has made them non-blocking.
    /// Returns `None` if there are no newcomers. If memory runs out, notes that in the host's state: the newcomer is
    /// served, but isn't counted as a guest.
    fn take_next(&mut self, now: Instant) -> Option<SocketAccepted<'a, Rt>> {
        // A single newcomer is chosen without a check.
        let index = if self.waiting.len() > 1 {
            self.first_to_speak()
        } else {
            0
        };
        let first = self.waiting.remove(index)?;
        let Newcomer {
            reader,
            writer,
            cut_off,
            connection,
            since: _,
            is_looked_at,
            peeked: _,
        } = first;
        if is_looked_at {
            let _is_waiting = connection.socket.set_waiting(self.rt, true);
        }
        if self
            .crowd
            .note_served(self.rt, connection.socket, now)
            .is_err()
        {
            self.state.note_memory(self.rt);
        }
        Some(Accepted::Came((reader, writer), cut_off))
    }

    /// Turns away all newcomers, and closes all connections that have left their seats, because the host is over.
    /// Returns `Over`.
    fn turn_all_away(&mut self) -> SocketAccepted<'a, Rt> {
        for _ in 0..self.waiting.len() {
            if let Some(first) = self.waiting.pop_front() {
                first.turn_away(EndReason::Over);
            }
        }
        self.crowd.partings.close_all(self.rt);
        Accepted::Over
    }

    /// Prepares the next accept after one that failed with an error of this `kind`. If memory ran out, notes that in
    /// the host's state. If the system refused the accept, frees descriptors: closes connections that were sent
    /// everything, and turns the first newcomer in the queue away. Then waits until a session ends, but at most for a
    /// tenth of a second, or for 5 milliseconds if the port `is_hurried`. `ended` is how many sessions had ended before
    /// the accept. Doesn't wait if a signal or the other side broke off the accept.
    fn put_off(&mut self, kind: ErrorKind, ended: u64) {
        match kind {
            ErrorKind::OutOfMemory => self.state.note_memory(self.rt),
            ErrorKind::Interrupted | ErrorKind::ConnectionAborted | ErrorKind::WouldBlock => {}
            _ => {
                self.crowd.partings.close_sent(self.rt);
                if let Some(first) = self.waiting.pop_front() {
                    first.turn_away(EndReason::Busy);
                }
            }
        }
        if !matches!(kind, ErrorKind::Interrupted | ErrorKind::ConnectionAborted) {
            self.state.wait_past(self.rt, ended, self.is_hurried());
        }
    }
}

impl<'a, Rt: Clock + Wait + Eprint> Accept<
    Incoming<'a, Rt>,
    ReplyWriter<'a, Rt>,
    SocketCutOff<'a, Rt>,
> for Port<'a, Rt> {
    // Sends the denials that are due, and returns the next newcomer to serve, if there is a seat for it. If nobody can
    // be served at once, accepts one more connection, adds it to the queue, and tries again. Returns `Nobody` if there
    // is still no seat, or the accept fails. Once the host is over, turns all newcomers away, and returns `Over`.
    fn accept_next(&mut self) -> SocketAccepted<'a, Rt> {
        let ended = self.state.ended_count(self.rt);
        if self.state.is_over(self.rt) {
            return self.turn_all_away();
        }
        self.crowd.partings.send_due(self.rt);
        if let Some(next) = self.admit_next() {
            return next;
        }
        let accepted = self.accept();
        if self.state.is_over(self.rt) {
            return self.turn_all_away();
        }
        match accepted {
            Ok(newcomer) => {
                self.queue(newcomer);
                match self.admit_next() {
                    Some(next) => next,
                    None => Accepted::Nobody,
                }
            }
            Err(error) => {
                self.put_off(error.kind(), ended);
                Accepted::Nobody
            }
        }
    }
}

/// The signal that a session has ended. The signal counts the session in the host's state. If the host ends with this
/// session, the signal also wakes the threads that wait in an accept, by a connection to each port.
#[derive(Drop)]
pub struct EndBell<'a, Rt> {
    pub rt: &'a Rt,
    pub state: &'a HostState,
    pub ports: [SocketAddr; 2],
    /// A spare descriptor, which is closed at the end, so that one is free for the connection that wakes an accept.
    pub spare: Mutex<Option<TcpListener>>,
}

impl<'a, Rt: Net<Listener = TcpListener, Stream = TcpStream> + Clock + Wait> Bell
    for EndBell<'a, Rt> {
    // Counts a session that has ended. `is_dismissed` says whether the class is over, by the teacher's bye or because a
    // port can't be served. If it is over, notes that in the host's state, closes the spare descriptor, and wakes the
    // accepts at both ports.
    fn ring(&self, is_dismissed: bool) {
        self.state.note_end(self.rt, is_dismissed);
        if is_dismissed {
            drop(self.spare.lock(self.rt).take());
            for port in self.ports.iter() {
                wake(self.rt, *port);
            }
        }
    }
}

/// Connects to a port of this host, to wake the accept that waits there. Tries up to 50 times (`WAKE_TRIES`), until a
/// connection is made, or nobody listens there any more.
fn wake<Rt: Net<Listener = TcpListener, Stream = TcpStream> + Clock>(rt: &Rt, port: SocketAddr) {
    let timeout = Duration::from_millis(WAKE_TIMEOUT);
    for _ in 0..WAKE_TRIES {
        match TcpStream::connect_timeout(rt, &port, timeout) {
            Ok(_) => return,
            Err(error) if error.kind() == ErrorKind::ConnectionRefused => return,
            Err(_) => thread::sleep(rt, timeout),
        }
    }
}
