//! The reading end of a connection, which has a deadline for each line.
//!
//! The host has two ports: the desk, which is the teacher's, and the students' port. The class is dismissed when the
//! reply to the teacher's bye at the desk was sent.
ghost use Rattle.std.specs.Prelude.{◌≤◌, length};
ghost use Rattle.std.specs.Io.{ReadsAtMost};

use crate::connection::SharedConnection;
use crate::end_reason::EndReason;
use mml_ends::Retrying;
use std::io;
use std::io::{Error, ErrorKind, Read};
use std::sync::Wait;
use std::sync::atomic::Ordering;
use std::time::{Clock, Duration, Instant};

/// The seconds from the beginning of a connection at the students' port until its hello must be granted.
pub const GREETING: u64 = 10;

/// The seconds from the beginning of a connection at the desk until the teacher's hello must be granted.
pub const DESK_GREETING: u64 = 5;

/// The seconds that each line of a student's connection may take after the one before it. At the desk there is no such
/// deadline.
pub const NEXT_LINE: u64 = 600;

// How the first line of a connection begins: like a JSON object, in another way, or not yet.
#[derive(Clone, Copy, PartialEq, Eq)]
enum FirstLine {
    Awaited,
    Object,
    Other,
}

/// The reading end of a connection. A read fails if the line takes too long, even if single bytes of it come. Until a
/// hello is granted (at the desk the teacher's), a read returns at most one line. Until then a read fails ten seconds
/// after the beginning of the connection, and at the desk five seconds after it, whatever is sent.
#[derive(Drop)]
pub struct SocketReader<'a, Rt> {
    pub(crate) connection: SharedConnection<'a, Rt>,
    // The deadline of the hello, and later of the line that is being read.
    deadline: Option<Instant>,
    // How long each line after the hello may take, or `None` if it may take any time.
    patience: Option<Duration>,
    // Whether a hello had been granted at the last read (at the desk, the teacher's).
    may_stay: bool,
    // How the first line begins.
    first: FirstLine,
    // Whether the bytes that were read last end within a line, so that the rest of it has still to come.
    is_in_line: bool,
    // The read timeout that the socket has now.
    limit: Option<Duration>,
}

/// The reading end, with retries after signals.
pub type Incoming<'a, Rt> = Retrying<SocketReader<'a, Rt>>;

impl<'a, Rt: Clock + Wait> SocketReader<'a, Rt> {
    /// Returns a reader of the connection's socket, whose deadline for the hello begins now. Returns an error if the
    /// clock fails.
    pub fn new(connection: SharedConnection<'a, Rt>) -> io::Result<Incoming<'a, Rt>> {
        let now = Instant::now(connection.rt)?;
        let (greeting, patience) = if connection.is_desk {
            (DESK_GREETING, None)
        } else {
            (GREETING, Some(Duration::from_secs(NEXT_LINE)))
        };
        Ok(Retrying::new(SocketReader {
            connection,
            deadline: now.checked_add(Duration::from_secs(greeting)),
            patience,
            may_stay: false,
            first: FirstLine::Awaited,
            is_in_line: false,
            limit: None,
        }))
    }

    /// Returns how long a read may still wait, or `None` if it may wait for ever. After the hello, a read at the
    /// beginning of a line may wait for the whole time of a line, so the socket's timeout needn't be changed for each
    /// read. Returns the error `TimedOut` if the deadline has passed, or another if the clock fails.
    fn time_left(&self) -> io::Result<Option<Duration>> {
        if self.may_stay && !self.is_in_line {
            return Ok(self.patience);
        }
        let Some(deadline) = self.deadline else {
            return Ok(None);
        };
        let left = deadline.duration_since(Instant::now(self.connection.rt)?);
        if left.is_zero() {
            return Err(Error::from(ErrorKind::TimedOut));
        }
        Ok(Some(left))
    }

    /// Restarts the deadline of the next line, if lines of this connection have one. Returns an error if the clock
    /// fails.
    fn restart_deadline(&mut self) -> io::Result<()> {
        self.deadline = match self.patience {
            Some(patience) => Instant::now(self.connection.rt)?.checked_add(patience),
            None => None,
        };
        Ok(())
    }

    /// Reads bytes that have come, or come before the deadline, and returns how many. Sets the socket's read timeout
    /// only if it changes. Returns an error if the deadline passes, the clock or the read fails, or the connection is
    /// closed.
    fn read_in_time(&mut self, buf: &mut [u8]) -> io::Result<usize>
        ensures { ReadsAtMost result buf.new }
    {
        let left = self.time_left()?;
        let is_known = left == self.limit;
        self.limit = left;
        let stream = self.connection.socket.stream.read(self.connection.rt);
        match &*stream {
            Some(stream) => {
                if !is_known {
                    stream.set_read_timeout(left)?;
                }
                let mut stream = stream;
                stream.read(buf)
            }
            None => Err(Error::from(ErrorKind::NotConnected)),
        }
    }

    /// Reads bytes that have come, or come before the deadline, but none after the end of the line, and returns how
    /// many. For that, looks at the bytes before it takes them from the socket. The function is used until the hello is
    /// granted, so that bytes after the hello's line are read only then. Returns the same errors as `read_in_time`.
    fn read_line_in_time(&mut self, buf: &mut [u8]) -> io::Result<usize>
        ensures { ReadsAtMost result buf.new }
    {
        self.limit = self.time_left()?;
        let stream = self.connection.socket.stream.read(self.connection.rt);
        match &*stream {
            Some(stream) => {
                stream.set_read_timeout(self.limit)?;
                let seen = stream.peek(buf)?;
                let end = end_of_line(buf, seen);
                let mut stream = stream;
                stream.read(&mut buf[..end])
            }
            None => Err(Error::from(ErrorKind::NotConnected)),
        }
    }

    /// Updates the deadline before a read. If the hello was granted since the last read, or a later line was answered
    /// since then, the next line has its whole time from now on. This function needn't search for the ends of lines,
    /// since `SocketReplies` notes each line that is answered. Returns an error if the clock fails.
    fn update_deadline(&mut self) -> io::Result<()> {
        let socket = &self.connection.socket;
        let has_answered = socket.is_line_answered.swap(false, Ordering::SeqCst);
        let is_granted = !self.may_stay && socket.may_stay.load(Ordering::SeqCst);
        self.may_stay = self.may_stay || is_granted;
        if is_granted || has_answered && self.may_stay {
            self.restart_deadline()?;
        }
        Ok(())
    }

    /// Returns whether the first line was read to its end, and didn't begin like a JSON object. Before the hello a read
    /// returns at most one line, so the first line has ended if the last read ended with a newline.
    fn is_no_request(&self) -> bool {
        self.first == FirstLine::Other && !self.is_in_line
    }

    /// Notes whether the `bytes` that were read end within a line, and how the first line begins.
    fn note_bytes(&mut self, bytes: &[u8]) {
        if let Some(last) = bytes.last() {
            self.is_in_line = *last != b'\n';
        }
        if self.first == FirstLine::Awaited {
            self.first = beginning_of(bytes);
        }
    }
}

impl<'a, Rt: Clock + Wait> Read for SocketReader<'a, Rt> {
    // Reads bytes before the deadline of the hello or of the line, and returns how many. The first read notes that the
    // connection is served. If the deadline passes, keeps `Late` as the reason of the end, and returns an error.
    // Returns 0 if nothing more is to be read: the connection is being ended, too many of its hellos were denied, its
    // first line doesn't begin like a JSON object, or the class is dismissed. Returns an error if the clock or the read
    // fails.
    fn read(&mut self, buf: &mut [u8]) -> io::Result<usize> {
        let socket = &self.connection.socket;
        socket.is_served.store(true, Ordering::SeqCst);
        // If the first line didn't begin like a JSON object, nothing more is read after it.
        if socket.is_done() || self.is_no_request() {
            return Ok(0);
        }
        self.update_deadline()?;
        let read = if self.may_stay {
            self.read_in_time(buf)
        } else {
            self.read_line_in_time(buf)
        };
        match read {
            // Lines that come after the reply to the teacher's bye aren't answered.
            Ok(_) if self.connection.state.is_dismissed(self.connection.rt) => {
                self.connection.note_end_reason(EndReason::Over);
                Ok(0)
            }
            Ok(count) => {
                self.note_bytes(&buf[..count]);
                Ok(count)
            }
            Err(error) => {
                if matches!(error.kind(), ErrorKind::TimedOut | ErrorKind::WouldBlock) {
                    self.connection.note_end_reason(EndReason::Late);
                }
                Err(error)
            }
        }
    }
}

/// Returns how a line begins, judged by its first `bytes`. Skips spaces, tabs and carriage returns. Returns `Awaited`
/// if there are no other bytes. A newline counts as another byte, so an empty line is `Other`.
fn beginning_of(bytes: &[u8]) -> FirstLine {
    for byte in bytes.iter() {
        match *byte {
            b' ' | b'\t' | b'\r' => {}
            b'{' => return FirstLine::Object,
            _ => return FirstLine::Other,
        }
    }
    FirstLine::Awaited
}

/// Returns how many of the first `count` bytes belong to the first line, with its newline. If none of them is a
/// newline, returns `count`.
fn end_of_line(bytes: &[u8], count: usize) -> usize
    ensures { result ≤ length bytes.now }
{
    let count = count.min(bytes.len());
    for index in 0..count {
        if bytes[index] == b'\n' {
            return index + 1;
        }
    }
    count
}
