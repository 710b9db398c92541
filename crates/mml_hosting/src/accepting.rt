//! Sources of connections, and how connections end.
//!
//! A house is one run of a lab that threads share: its list of granted events, the board after them, and their journal.
//! It has two ports. At the one port, the desk, the teacher connects, and the teacher's bye there ends the house. A
//! seat serves one connection after another.
ghost use Rattle.std.specs.Prelude.{List, None, Option};
ghost use Rattle.mml_hosting.specs.Bringing.{Brings};

use std::io::{Read, Write};

/// The result of an accept.
#[derive(Drop)]
pub enum Accepted<R: Drop, W: Drop, U: Drop> {
    /// A connection: its reading and its writing end, and the cut-off, with which another thread can end it.
    Came((R, W), U),
    /// No connection. The caller should drop the connections whose sessions have ended, and accept again.
    Nobody,
    /// No more connections are to be served.
    Over,
}

/// A source of connections, which it returns as they come.
pub trait Accept<R: Read + Drop, W: Write + Drop, U: CutOff + Drop> {
    // The connections that are still to come; `None` if contracts can't name them.
    ghost to_come: { Self → Option (List (R × W)) } = { λ _. None };

    /// Waits for the next connection and returns it. May also return `Nobody`, after which the caller accepts again, or
    /// `Over` if no more connections are to be served.
    fn accept_next(&mut self) -> Accepted<R, W, U>
        ensures { Brings (to_come self.old) (to_come self.new) result };
}

/// The means by which another thread ends a connection.
pub trait CutOff {
    // The statement that the connection was ended. For an unknown type `U`, only a call of `cut_off` can prove it.
    ghost IsCutOff: { Self → Type 0 } = { λ _. Unit {0} };

    /// Ends the connection, so that its next read or write finds its end. Works also before the connection is served.
    fn cut_off(&self)
        ensures { IsCutOff self.now };
}

/// The signal by which the threads that serve connections wake the house.
pub trait Bell {
    ghost use Rattle.std.specs.Prelude.{Bool};

    // The statement that the bell was rung, and with which `is_dismissed`. For an unknown type, only a call of `ring`
    // can prove it.
    ghost IsRung: { Self → Bool → Type 0 } = { λ _ _. Unit {0} };

    /// Signals that a session has ended. If `is_dismissed` is set, signals that the whole house is to end, because the
    /// teacher said bye at the desk or a port couldn't be served.
    fn ring(&self, is_dismissed: bool)
        ensures { IsRung self.now is_dismissed };
}
