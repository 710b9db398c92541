//! One end of a connection over a socket.
//!
//! `Retrying` is a reader or writer that retries after a signal, and remembers whether memory ran out. Lingering means
//! to wait for a short time, after the last write, until the other side ends the connection too.
ghost use Rattle.std.specs.Prelude.{◌≡◌, ◌≢◌, true, false, None};

use crate::arrivals::{HangUp, LetGo};
use mml_ends::Retrying;
use std::io;
use std::io::{Error, ErrorKind, Read, Write};
use std::net::{Shutdown, TcpStream};
use std::sync::atomic::{AtomicBool, Ordering};
use std::time::Duration;

// The most turns of `linger`. In each turn, `linger` waits for bytes that still come, and reads them.
const TURNS: u32 = 64;

// The most milliseconds that a turn of `linger` takes, so that all of them together take less than a second.
const TURN: u64 = 15;

// The most bytes that a turn of `linger` reads, so that all together read at most 64 kB.
const TURN_SIZE: usize = 1024;

/// A handle of a connected socket. After the handle is closed, each read and each write fails.
#[derive(Drop)]
pub struct Socket {
    pub(crate) end: Retrying<Handle>,
}

impl Socket {
    /// Returns an end of the connection `stream`.
    pub fn new(stream: TcpStream) -> Socket {
        Socket {
            end: Retrying::new(Handle(Some(stream))),
        }
    }
}

impl Read for Socket {
    // Reads from the socket, and retries if a signal interrupts the read. Returns `NotConnected` once the handle is
    // closed.
    fn read(&mut self, buf: &mut [u8]) -> io::Result<usize> {
        self.end.read(buf)
    }
}

impl Write for Socket {
    // Writes to the socket, and retries if a signal interrupts the write. Returns `NotConnected` once the handle is
    // closed.
    fn write(&mut self, buf: &[u8]) -> io::Result<usize> {
        self.end.write(buf)
    }

    // Does nothing: no bytes are buffered here.
    fn flush(&mut self) -> io::Result<()> {
        Ok(())
    }
}

impl LetGo for Socket {
    ghost IsLetGo = { λ socket. socket.end.inner.0 ≡ None };

    // Closes the handle. Each later read fails.
    fn let_go(&mut self) {
        self.end.inner.0 = None;
    }
}

impl HangUp for Socket {
    ghost IsHungUp = { λ socket. socket.end.inner.0 ≡ None };

    // Shuts down the writing side, then waits until the other side has ended too, for at most the turns of `linger`,
    // and closes the handle. Does nothing if the handle is closed already.
    fn hang_up(&mut self) {
        if let Some(stream) = self.end.inner.0.take() {
            linger(stream, &AtomicBool::new(false));
        }
    }
}

/// Ends the connection `stream` without losing what was written to it. Shuts down the writing side, and then reads and
/// drops what the other side still sends, in at most 64 turns of 15 milliseconds and 1024 bytes. Without that, closing
/// the socket with unread bytes would discard what it still has to send. Stops early if the other side has ended or is
/// gone, or once another thread sets `is_hurried`. In the end, the handle is closed.
pub fn linger(stream: TcpStream, is_hurried: &AtomicBool) {
    let mut stream = stream;
    let turn = Some(Duration::from_millis(TURN));
    // Both calls fail if the other side is gone.
    if stream.shutdown(Shutdown::Write).is_err() || stream.set_read_timeout(turn).is_err() {
        return;
    }
    let mut unwanted = [0; TURN_SIZE];
    for _ in 0..TURNS {
        match stream.read(&mut unwanted) {
            Ok(0) => return,
            Ok(_) => {}
            Err(error) => {
                if !is_transient(error.kind()) {
                    return;
                }
            }
        }
        if is_hurried.load(Ordering::SeqCst) {
            return;
        }
    }
}

/// Returns whether a read that failed with an error of this kind may be tried again in the next turn: it timed out, or
/// a signal interrupted it.
fn is_transient(kind: ErrorKind) -> bool
    ensures timeout { kind ≡ ErrorKind.WouldBlock → result ≡ true }
    ensures interrupted { kind ≡ ErrorKind.Interrupted → result ≡ true }
    ensures other { kind ≢ ErrorKind.WouldBlock → kind ≢ ErrorKind.Interrupted → result ≡ false }
{
    matches!(kind, ErrorKind::WouldBlock | ErrorKind::Interrupted)
}

// The handle of a `Socket`, or `None` once it is closed.
#[derive(Drop)]
pub(crate) struct Handle(Option<TcpStream>);

impl Read for Handle {
    // Reads from the socket once, without a retry. Returns `NotConnected` if the handle is closed.
    fn read(&mut self, buf: &mut [u8]) -> io::Result<usize> {
        match &mut self.0 {
            Some(stream) => stream.read(buf),
            None => Err(Error::from(ErrorKind::NotConnected)),
        }
    }
}

impl Write for Handle {
    // Writes to the socket once, without a retry. Returns `NotConnected` if the handle is closed.
    fn write(&mut self, buf: &[u8]) -> io::Result<usize> {
        match &mut self.0 {
            Some(stream) => stream.write(buf),
            None => Err(Error::from(ErrorKind::NotConnected)),
        }
    }

    // Does nothing: no bytes are buffered here.
    fn flush(&mut self) -> io::Result<()> {
        Ok(())
    }
}
