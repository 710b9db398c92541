//! Sources of connections, and how connections are closed.
//!
//! A connection has a reading and a writing end. Both ends of a socket have a handle of the system. Bytes in memory can
//! be an end, too, and have none.
ghost use Rattle.std.specs.Prelude.{◌≡◌, List, [], ◌∷◌, None, Option, Some, MatchResult};
ghost use Rattle.std.specs.Vec.Iter.{into_iter_items};
ghost use Rattle.mml_serving.specs.Arriving.{Takes};

use crate::socket::Socket;
use std::collections::VecDeque;
use std::io;
use std::io::{ErrorKind, Read, Write};
use std::net::TcpListener;
use std::vec::IntoIter;

/// A source of connections, which returns each connection as it comes, as a reading and a writing end.
pub trait Arrivals<R: Read + Drop, W: Write + Drop> {
    // The connections that are still to come; `None` if contracts can't name them.
    ghost to_come: { Self → Option (List (R × W)) } = { λ _. None };

    /// Waits for the next connection, and returns its reading and its writing end. Returns an error if none could be
    /// accepted.
    fn accept_next(&mut self) -> io::Result<(R, W)>
        ensures { MatchResult result
            (λ ends. Takes (to_come self.old) (to_come self.new) (ends ∷ []))
            (λ _. Takes (to_come self.old) (to_come self.new) []) };
}

/// The reading end of a connection, whose handle can be closed while the value lives on.
pub trait LetGo: Read {
    // The statement that the handle is closed. Bytes in memory have no handle, so it says nothing of them.
    ghost IsLetGo: { Self → Type 0 } = { λ _. Unit {0} };

    /// Closes the connection's handle. Nothing more is read.
    fn let_go(&mut self)
        ensures remaining { Self.remaining self.new ≡ Self.remaining self.old }
        ensures closed { IsLetGo self.new };
}

/// The writing end of a connection, which can signal to the other side that no more bytes follow.
pub trait HangUp: Write {
    // The statement that the connection is ended and the handle closed. Bytes in memory have neither, so it says
    // nothing of them.
    ghost IsHungUp: { Self → Type 0 } = { λ _. Unit {0} };

    /// Ends the connection and closes its handle. Nothing more is written.
    fn hang_up(&mut self)
        ensures contents { Self.contents self.new ≡ Self.contents self.old }
        ensures ended { IsHungUp self.new };
}

impl Arrivals<Socket, Socket> for TcpListener {
    // Waits for the next connection and returns its two ends: two handles of one socket, which is set to send each
    // write at once. Returns an error if accepting fails, or no second handle can be made.
    fn accept_next(&mut self) -> io::Result<(Socket, Socket)> {
        let (stream, _) = self.accept()?;
        // If the system refuses to send each write at once, replies are still sent, only later.
        let _ = stream.set_nodelay(true);
        let writer = Socket::new(stream.try_clone()?);
        Ok((Socket::new(stream), writer))
    }
}

/// Connections that have come already, in their order.
impl<R: Read + Drop, W: Write + Drop> Arrivals<R, W> for IntoIter<(R, W)> {
    ghost to_come = { λ ends. Some (into_iter_items ends) };

    // Returns the next connection of the list, as its two ends. Returns the error `NotConnected` after the last one.
    fn accept_next(&mut self) -> io::Result<(R, W)>
        ensures { MatchResult result
            (λ ends. Takes (Some (into_iter_items self.old)) (Some (into_iter_items self.new))
            (ends ∷ []))
            (λ _. Takes (Some (into_iter_items self.old)) (Some (into_iter_items self.new)) []) }
    {
        match self.next() {
            Some(ends) => Ok(ends),
            None => Err(io::Error::from(ErrorKind::NotConnected)),
        }
    }
}

/// Bytes in memory.
impl<'a> LetGo for &'a [u8] {
    // Does nothing: bytes in memory have no handle.
    fn let_go(&mut self) {}
}

/// Bytes in memory that are taken from the front of a queue.
impl LetGo for VecDeque<u8> {
    // Does nothing: bytes in memory have no handle.
    fn let_go(&mut self) {}
}

/// Bytes in memory.
impl HangUp for Vec<u8> {
    // Does nothing: bytes in memory have no handle, and there is no other side.
    fn hang_up(&mut self) {}
}
