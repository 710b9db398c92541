//! Observers of sessions.
//!
//! A seat serves one connection after another, each through the seat's window. `number` is always the number of the
//! seat. A gate is a point at which tests can stop a session.
ghost use Rattle.std.specs.Prelude.{◌≡◌, Option, None};
ghost use Rattle.mml_session.specs.Records.{Kept, Records, entry_for, left};

use crate::gate::{Gate, Point};
use crate::session::Ending;
use mml_codec::Reply;

/// An observer of the sessions of a seat, in which one session follows another. An observer is called when a line has
/// come, when it was answered, when replies were written, and when a session ended. The calls return nothing, so they
/// can't end a session. If an observer that records sessions can't keep the whole of an entry, it keeps nothing from
/// then on, and `kept` says that something is missing. A seat is a window through which one connection after another is
/// served.
pub trait Observer {
    // The bytes that the observer has kept of these calls, and whether they are complete; `None` if contracts can't
    // name them.
    ghost kept: { Self → Option Kept };

    /// Observes a line that has come in the seat with this number, before the line is answered.
    fn came(&mut self, number: u8, line: &[u8])
        ensures { kept self.new ≡ kept self.old };

    /// Observes that `reply` answers a line, before the reply is written. `line` has no newline. `out` is the line of
    /// the reply, with its newline. The session's window has seen `seen` events.
    fn answered(&mut self, number: u8, seen: u64, line: &[u8], reply: &Reply, out: &[u8])
        ensures { Records number (kept self.old) (kept self.new)
            (entry_for seen line.now reply.now out.now) };

    /// Observes that replies were written to the connection: `replies` of them since the last call of `wrote`. At the
    /// end of a session, `replies` may be 0.
    fn wrote(&mut self, number: u8, replies: u32)
        ensures { kept self.new ≡ kept self.old };

    /// Observes that a session in the seat with this number has ended, as `ending` says. The session's window had seen
    /// `seen` events.
    fn left(&mut self, number: u8, ending: &Ending, seen: u64)
        ensures { Records number (kept self.old) (kept self.new) (left seen) };
}

/// An observer that does nothing.
#[derive(Clone, Copy)]
pub struct NoObserver;

impl Observer for NoObserver {
    ghost kept = { λ _. None };

    // Does nothing when a line has come.
    fn came(&mut self, _number: u8, _line: &[u8]) {}

    // Does nothing: the line and its reply aren't recorded.
    fn answered(&mut self, _number: u8, _seen: u64, _line: &[u8], _reply: &Reply, _out: &[u8]) {}

    // Does nothing when replies were written.
    fn wrote(&mut self, _number: u8, _replies: u32) {}

    // Does nothing: the session's end isn't recorded.
    fn left(&mut self, _number: u8, _ending: &Ending, _seen: u64) {}
}

/// A gate, which may pause a session, around another observer.
#[derive(Drop)]
pub struct Gated<'a, G, O: Drop> {
    pub gate: &'a G,
    pub observer: O,
}

impl<'a, G: Gate, O: Observer + Drop> Observer for Gated<'a, G, O> {
    ghost kept = { λ g. O.kept g.observer };

    // Passes the line to the inner observer. Then waits at the gate until the session may go on, before its line is
    // answered.
    fn came(&mut self, number: u8, line: &[u8]) {
        self.observer.came(number, line);
        self.gate.pass(number, Point::Line);
    }

    // Passes the line, the reply and the reply's line to the inner observer.
    fn answered(&mut self, number: u8, seen: u64, line: &[u8], reply: &Reply, out: &[u8]) {
        self.observer.answered(number, seen, line, reply, out);
    }

    // Passes the number of written replies to the inner observer. Then waits at the gate once for each reply.
    fn wrote(&mut self, number: u8, replies: u32) {
        self.observer.wrote(number, replies);
        for _ in 0..replies {
            self.gate.pass(number, Point::Told);
        }
    }

    // Passes the end of a session to the inner observer.
    fn left(&mut self, number: u8, ending: &Ending, seen: u64) {
        self.observer.left(number, ending, seen);
    }
}
