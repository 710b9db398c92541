//! Observers of a connection's replies, and of the end of its session.
//!
//! A seat serves one connection after another, each through the seat's window. A seat's observer is for all its
//! sessions, and a reply observer for one connection. `number` is always the number of the seat, and `seen` how many
//! events the seat's window has seen.
ghost use Rattle.std.specs.Prelude.{◌≡◌};

use mml_codec::Reply;
use mml_session::{Ending, Observer};
use std::io::Write;

/// An observer of the replies of one connection, and of the end of its session.
pub trait ReplyObserver {
    /// Notes a reply to the connection, before the reply's bytes are written.
    fn note_reply(&mut self, reply: &Reply);

    /// Notes that the connection's session has ended, as `ending` says, before the connection is closed.
    fn note_end(&mut self, ending: &Ending);
}

/// An observer that notes nothing.
#[derive(Clone, Copy, Drop)]
pub struct NoReplies;

impl ReplyObserver for NoReplies {
    // Does nothing: no reply is noted.
    fn note_reply(&mut self, _reply: &Reply) {}

    // Does nothing: the end of the session isn't noted.
    fn note_end(&mut self, _ending: &Ending) {}
}

/// An observer, or none.
impl<E: ReplyObserver> ReplyObserver for Option<E> {
    // Passes the reply to the observer, if there is one.
    fn note_reply(&mut self, reply: &Reply) {
        if let Some(observer) = self {
            observer.note_reply(reply);
        }
    }

    // Passes the end of the session to the observer, if there is one.
    fn note_end(&mut self, ending: &Ending) {
        if let Some(observer) = self {
            observer.note_end(ending);
        }
    }
}

/// The writing end of a connection, which has an observer of the replies to it.
pub trait Observed: Write {
    /// The observer of the replies.
    type Replies: ReplyObserver + Send + Drop;

    /// Returns an observer for the replies of the connection's one session.
    fn reply_observer(&mut self) -> Self::Replies
        ensures contents { Self.contents self.new ≡ Self.contents self.old };
}

/// An observer of a seat's sessions and an observer of the replies of one connection, combined into one.
#[derive(Drop)]
pub(crate) struct Both<O: Drop, E: Drop> {
    pub(crate) observer: O,
    pub(crate) replies: E,
}

impl<O: Observer + Drop, E: ReplyObserver + Drop> Observer for Both<O, E> {
    ghost kept = { λ b. O.kept b.observer };

    // Passes the line that came to the seat's observer.
    fn came(&mut self, number: u8, line: &[u8]) {
        self.observer.came(number, line);
    }

    // Passes the reply to both observers; the seat's observer also gets the line and the reply's line.
    fn answered(&mut self, number: u8, seen: u64, line: &[u8], reply: &Reply, out: &[u8]) {
        self.observer.answered(number, seen, line, reply, out);
        self.replies.note_reply(reply);
    }

    // Passes the number of written replies to the seat's observer.
    fn wrote(&mut self, number: u8, replies: u32) {
        self.observer.wrote(number, replies);
    }

    // Passes the end of a session to both observers.
    fn left(&mut self, number: u8, ending: &Ending, seen: u64) {
        self.observer.left(number, ending, seen);
        self.replies.note_end(ending);
    }
}
