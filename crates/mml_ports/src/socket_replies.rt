//! What the replies to a connection say about it: that a line was answered, whether a hello was granted or denied, and
//! the teacher's bye. And what the end of its session says: whether a line was too long.
//!
//! A stranger is a connection on which no hello was granted; at the desk only the teacher's counts. The crowd of a port
//! is the list of the connections that are served there. The desk is the port for the teacher.
use crate::connection::SharedConnection;
use crate::end_reason::EndReason;
use mml_board::Denial;
use mml_codec::Reply;
use mml_hosting::ReplyObserver;
use mml_lab::Who;
use mml_session::{Ending, SessionEnd};
use std::sync::Wait;
use std::sync::atomic::Ordering;

/// The observer of the replies to a connection. The observer notes that a line was answered, for the connection's
/// reader. For the connection's writer and the port's crowd, it notes whose hello was granted, and which hellos were
/// denied. It also notes the teacher's bye, and that the session was ended by a line that was too long.
#[derive(Drop)]
pub struct SocketReplies<'a, Rt> {
    connection: SharedConnection<'a, Rt>,
}

impl<'a, Rt: Wait> SocketReplies<'a, Rt> {
    /// Returns the observer of this connection's replies, which hasn't seen any yet.
    pub fn new(connection: SharedConnection<'a, Rt>) -> SocketReplies<'a, Rt> {
        SocketReplies { connection }
    }

    /// Notes that the hello of `who` was granted, and whether this is the teacher's connection at the desk. Notes that
    /// the connection is no stranger any more, except for a student's hello at the desk.
    fn note_greeting(&self, who: Who) {
        let SharedConnection {
            rt,
            crowd,
            is_desk,
            socket,
            ..
        } = &self.connection;
        let is_teacher = matches!(who, Who::Teacher);
        socket.is_greeted.store(true, Ordering::SeqCst);
        socket
            .is_teachers
            .store(*is_desk && is_teacher, Ordering::SeqCst);
        if !*is_desk || is_teacher {
            crowd.note_greeting(*rt, socket.number, who);
            socket.may_stay.store(true, Ordering::SeqCst);
        }
    }
}

impl<'a, Rt: Wait> ReplyObserver for SocketReplies<'a, Rt> {
    // Notes that a line was answered, and what the reply means for the connection. The first granted hello is passed to
    // `note_greeting`. Before it, each denial of a hello's name and key is counted, and the writer will delay the
    // denial. If the reply is to the teacher's bye at the desk, notes that the next write dismisses the class.
    fn note_reply(&mut self, reply: &Reply) {
        let socket = &self.connection.socket;
        socket.is_line_answered.store(true, Ordering::SeqCst);
        let is_greeted = socket.is_greeted.load(Ordering::SeqCst);
        match reply {
            Reply::Hello(who) if !is_greeted => self.note_greeting(*who),
            Reply::Deny(Denial::Unknown) if !is_greeted => socket.note_denial(),
            Reply::Bye if socket.is_teachers.load(Ordering::SeqCst) => {
                socket.is_farewell.store(true, Ordering::SeqCst);
            }
            _ => {}
        }
    }

    // Keeps `Long` as the reason of the end if the session was ended by a line that was longer than a request may be.
    fn note_end(&mut self, ending: &Ending) {
        if matches!(ending.end, SessionEnd::TooLong) {
            self.connection.note_end_reason(EndReason::Long);
        }
    }
}
