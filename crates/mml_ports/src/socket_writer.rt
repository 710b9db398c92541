//! The writing end of a connection. This end delays denials of hellos, and sends the reason when the connection ends.
//!
//! The turn of a denial is the time before which it isn't sent. A seat is a part of the server that serves one
//! connection after another. The crowd of a port has the list of the connections that are served there, and its
//! partings: those that have left their seats and aren't closed yet. A stranger is a connection on which no hello was
//! granted; at the desk, the teacher's port, only the teacher's counts. The class is dismissed when the reply to the
//! teacher's bye at the desk was sent.
ghost use Rattle.std.specs.Prelude.{◌≡◌};
ghost use Rattle.std.specs.Io.{WritesAtMost};

use crate::connection::SharedConnection;
use crate::end_reason::EndReason;
use crate::parting::{PARTING, send_line};
use crate::socket_reader::Incoming;
use crate::socket_replies::SocketReplies;
use mml_ends::Retrying;
use mml_hosting::{CutOff, Keep, Observed, ServedSession};
use mml_serving::{HangUp, linger};
use mml_session::SessionEnd;
use std::io::{Error, ErrorKind, Write};
use std::net::TcpStream;
use std::snapshot::Snapshot;
use std::sync::Wait;
use std::sync::atomic::Ordering;
use std::time::{Clock, Duration, Instant};
use std::{io, thread};

/// How many seconds a write may wait until the other side takes a byte.
pub const WRITE_LIMIT: u64 = 10;

// The last milliseconds of the delay of a denial, in which a connection that is being ended doesn't wait any longer.
const NEAR: u64 = 500;

/// The writing end of a connection. This end delays each denial of a hello's name and key until its turn, which
/// `HostState::turn_of_denial` determines, so that nobody can try many keys quickly.
#[derive(Drop)]
pub struct SocketWriter<'a, Rt> {
    connection: SharedConnection<'a, Rt>,
    // Whether the next byte begins a line.
    is_at_line: bool,
    // Whether the other side has taken nothing for too long, so that no more is written to it.
    is_deaf: bool,
    // The turn of the denial that is being written, as long as no byte of it was sent.
    turn: Option<Instant>,
    // The turn of the denial that must still be sent after the connection has left its seat.
    postponed: Option<Instant>,
}

impl<'a, Rt: Clock + Wait + Eprint> SocketWriter<'a, Rt> {
    /// Counts a denial of a name and key before it is sent, and prints the count on standard error if
    /// `HostState::note_denial` returns it. If a new connection waits, lets the crowd send a stranger away, which may
    /// be this connection. Waits until the denial's turn as `wait_for_turn` does, and returns that turn. Returns an
    /// error if the clock fails.
    fn delay_denial(&self) -> io::Result<Instant> {
        let SharedConnection {
            rt,
            state,
            crowd,
            ..
        } = &self.connection;
        let rt = *rt;
        if let Some(count) = state.note_denial(rt) {
            let _ = eprintln!(rt;
                "host: {count} hellos had no right key: somebody may be guessing"
            );
        }
        crowd.make_room(rt);
        let turn = state.turn_of_denial(rt)?;
        self.wait_for_turn(turn)?;
        Ok(turn)
    }

    /// Notes that a reply was sent. If the connection is a stranger, it may now be sent away, so the crowd is asked to
    /// make room for a new connection.
    fn note_answered(&self) {
        let SharedConnection {
            rt,
            crowd,
            socket,
            ..
        } = &self.connection;
        socket.is_answered.store(true, Ordering::SeqCst);
        if !socket.may_stay.load(Ordering::SeqCst) {
            crowd.make_room(*rt);
        }
    }

    /// Waits until `turn`, the turn of a denial, in two parts. In the last half second, another thread can end the wait
    /// by ending the connection: then the port keeps the denial, and sends it at its turn (`postpone_denial`). Before
    /// that no thread can end the wait, so that the port never keeps a denial for longer than half a second. Returns an
    /// error if the clock fails.
    fn wait_for_turn(&self, turn: Instant) -> io::Result<()> {
        let rt = self.connection.rt;
        let wait = turn.duration_since(Instant::now(rt)?);
        let near = Duration::from_millis(NEAR);
        thread::sleep(rt, wait.saturating_sub(near));
        self.connection.socket.wait_for_end(rt, wait.min(near));
        Ok(())
    }

    /// Writes as many bytes as the other side takes within `WRITE_LIMIT`, and returns how many. Returns an error if the
    /// socket was closed, or refuses the write, or the clock fails. If the other side took only some of the bytes
    /// within that time, later writes fail (`is_deaf`).
    fn write_now(&mut self, buf: &[u8]) -> io::Result<usize>
        ensures { WritesAtMost result buf.now }
    {
        let rt = self.connection.rt;
        let stream = self.connection.socket.stream.read(rt);
        match &*stream {
            Some(stream) => {
                let begun = Instant::now(rt)?;
                let mut stream = stream;
                let taken = stream.write(buf)?;
                let limit = Duration::from_secs(WRITE_LIMIT);
                self.is_deaf = taken < buf.len() && begun.elapsed(rt)? >= limit;
                Ok(taken)
            }
            None => Err(Error::from(ErrorKind::NotConnected)),
        }
    }

    /// Leaves the denial to the port if the connection is being ended because there is no seat. Keeps the denial's
    /// turn, at which the port sends it, and returns the length of `buf`, as if all was written. Returns `BrokenPipe`
    /// if the reply isn't a denial that waited for its turn, or there is another reason for the end.
    fn postpone_denial(&mut self, buf: &[u8]) -> io::Result<usize>
        ensures { WritesAtMost result buf.now }
    {
        let SharedConnection { rt, socket, .. } = &self.connection;
        if self.turn.is_none() || !socket.is_turned_away(*rt) {
            return Err(Error::from(ErrorKind::BrokenPipe));
        }
        self.postponed = self.turn;
        Ok(buf.len())
    }

    /// Writes bytes that end with the reply to the teacher's bye, and returns how many were sent. If all were, the
    /// class is dismissed. Holds the lock of `HostState::is_dismissed` meanwhile: a reader that has read something
    /// waits for this lock, to know whether the class is dismissed. Returns an error if the write fails.
    fn write_farewell(&mut self, buf: &[u8]) -> io::Result<usize>
        ensures { WritesAtMost result buf.now }
    {
        let state = self.connection.state;
        let mut is_dismissed = state.is_dismissed.write(self.connection.rt);
        let taken = self.write_now(buf)?;
        *is_dismissed = taken == buf.len();
        Ok(taken)
    }

    /// Closes the connection, whose stream is `stream`, or passes it to the port's partings to be closed. If a denial
    /// is still to be sent, the partings send it at its turn. If the connection was sent away to free its seat, or was
    /// never served, they send it the reason for the end, if there is one. Otherwise this function sends the reason,
    /// and lingers, so that the other side can read what was sent.
    fn close_or_pass_on(&self, stream: TcpStream) {
        let SharedConnection {
            rt,
            crowd,
            socket,
            ..
        } = &self.connection;
        let rt = *rt;
        if let Some(turn) = self.postponed {
            crowd.partings.add_denied(rt, stream, turn);
            return;
        }
        // The reason isn't sent after a part of a reply, since it wouldn't be a line of its own there.
        let why = if self.is_at_line {
            socket.end_reason(rt)
        } else {
            None
        };
        if !socket.is_served.load(Ordering::SeqCst) || socket.is_turned_away(rt) {
            crowd.partings.add_ending(rt, stream, why);
            return;
        }
        if let Some(why) = why {
            send_end_reason(&stream, why);
        }
        // Lingers only briefly if a new connection waits for the seat.
        linger(stream, &crowd.is_wanted);
    }
}

impl<'a, Rt: Clock + Wait + Eprint> Write for SocketWriter<'a, Rt> {
    // Writes bytes, and returns how many were sent. First waits for the turn if the bytes are a denial of a name and
    // key. If the bytes end with the reply to the teacher's bye, that dismisses the class. Fails if the clock or the
    // socket fails, or the other side took too long in an earlier write (`is_deaf`). Also fails if the connection is
    // being ended, unless the bytes are a denial that the port sends later.
    fn write(&mut self, buf: &[u8]) -> io::Result<usize> {
        if self.is_deaf {
            return Err(Error::from(ErrorKind::TimedOut));
        }
        if self.connection.socket.take_denial() {
            self.turn = Some(self.delay_denial()?);
        }
        let written = if self.connection.socket.begin_write() {
            if self.connection.socket.is_farewell.load(Ordering::SeqCst) {
                self.write_farewell(buf)
            } else {
                self.write_now(buf)
            }
        } else {
            self.postpone_denial(buf)
        };
        self.connection.socket.end_write();
        let taken = written?;
        self.note_answered();
        if let Some(last) = buf[..taken].last() {
            self.is_at_line = *last == b'\n';
            self.turn = None;
        }
        Ok(taken)
    }

    // Does nothing: no bytes are buffered.
    fn flush(&mut self) -> io::Result<()> {
        Ok(())
    }
}

/// The writing end of a connection, with retries after signals. The writing side is shut down at the end.
#[derive(Drop)]
pub struct ReplyWriter<'a, Rt> {
    end: Retrying<SocketWriter<'a, Rt>>,
    // The observer of the replies, until the session takes it.
    replies: Option<SocketReplies<'a, Rt>>,
}

impl<'a, Rt: Clock + Wait + Eprint> ReplyWriter<'a, Rt> {
    /// Returns a writer to the connection's socket, before anything was written. `replies` is the observer of the
    /// connection's replies.
    pub fn new(
        connection: SharedConnection<'a, Rt>,
        replies: SocketReplies<'a, Rt>,
    ) -> ReplyWriter<'a, Rt> {
        ReplyWriter {
            end: Retrying::new(SocketWriter {
                connection,
                is_at_line: true,
                is_deaf: false,
                turn: None,
                postponed: None,
            }),
            replies: Some(replies),
        }
    }
}

impl<'a, Rt: Clock + Wait + Eprint> Write for ReplyWriter<'a, Rt> {
    // Writes to the connection's socket, retries if a signal interrupted it, and returns how many bytes were sent.
    fn write(&mut self, buf: &[u8]) -> io::Result<usize> {
        self.end.write(buf)
    }

    // Does nothing: no bytes are buffered.
    fn flush(&mut self) -> io::Result<()> {
        Ok(())
    }
}

impl<'a, Rt: Clock + Wait + Eprint + Sync> Observed for ReplyWriter<'a, Rt> {
    /// The observer of the replies, or `None` if the session has taken it already.
    type Replies = Option<SocketReplies<'a, Rt>>;

    // Returns the observer of the replies at the first call, and `None` at later ones.
    fn reply_observer(&mut self) -> Option<SocketReplies<'a, Rt>> {
        self.replies.take()
    }
}

impl<'a, Rt: Clock + Wait + Eprint> HangUp for ReplyWriter<'a, Rt> {
    // Closes the connection as `close_or_pass_on` does, if it isn't closed yet. A connection that was never served is
    // also removed from the crowd here.
    fn hang_up(&mut self) {
        let writer = &self.end.inner;
        let SharedConnection {
            rt,
            crowd,
            socket,
            ..
        } = &writer.connection;
        let rt = *rt;
        let stream = socket.stream.write(rt).take();
        if let Some(stream) = stream {
            writer.close_or_pass_on(stream);
        }
        // A connection that was served leaves the crowd in `SocketSession::keep`, when its seat can be used again.
        if !socket.is_served.load(Ordering::SeqCst) {
            crowd.note_left(rt, socket.number);
        }
    }
}

/// Sends the reason why the connection is ended, and waits for at most `PARTING` milliseconds until the other side
/// takes it. Sends nothing if the system refuses to set this timeout.
fn send_end_reason(stream: &TcpStream, why: EndReason) {
    if stream
        .set_write_timeout(Some(Duration::from_millis(PARTING)))
        .is_ok()
    {
        send_line(stream, why.line());
    }
}

/// The means by which another thread ends a connection.
#[derive(Drop)]
pub struct SocketCutOff<'a, Rt> {
    connection: SharedConnection<'a, Rt>,
}

impl<'a, Rt: Wait> SocketCutOff<'a, Rt> {
    /// Returns the means by which another thread ends this connection.
    pub fn new(connection: SharedConnection<'a, Rt>) -> SocketCutOff<'a, Rt> {
        SocketCutOff { connection }
    }
}

impl<'a, Rt: Wait> CutOff for SocketCutOff<'a, Rt> {
    // Ends the connection. The reason is `Over` if the host is over, and otherwise `Busy`, unless there is a reason
    // already.
    fn cut_off(&self) {
        let SharedConnection {
            rt,
            state,
            socket,
            ..
        } = &self.connection;
        let why = if state.is_over(*rt) {
            EndReason::Over
        } else {
            EndReason::Busy
        };
        socket.end_with(*rt, why);
    }
}

/// What is kept of a session over a socket: only a snapshot of it, which contracts alone can read.
#[derive(Drop)]
pub struct SocketSession<'a, Rt>(Snapshot<ServedSession<Incoming<'a, Rt>, ReplyWriter<'a, Rt>>>);

impl<'a, Rt: Clock + Wait + Eprint> Keep<Incoming<'a, Rt>, ReplyWriter<'a, Rt>>
    for SocketSession<'a, Rt> {
    ghost shows = { λ kept. kept.0.value };

    // Drops a session that has ended. Removes its connection from the crowd, so that its seat is free. If the session
    // ran out of memory, notes that in the host's state. Returns a snapshot of the session, which contracts alone can
    // read.
    fn keep(session: ServedSession<Incoming<'a, Rt>, ReplyWriter<'a, Rt>>) -> SocketSession<'a, Rt>
        ensures { result.0.value ≡ session.entry }
    {
        let was_short = matches!(session.ending.end, SessionEnd::Memory);
        let reader = &session.reader;
        let SharedConnection {
            rt,
            state,
            crowd,
            socket,
            ..
        } = &reader.inner.connection;
        crowd.note_left(*rt, socket.number);
        if was_short || reader.lacked_memory || session.writer.end.lacked_memory {
            state.note_memory(*rt);
        }
        SocketSession(Snapshot::of(&session))
    }
}
