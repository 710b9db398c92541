//! Connections, and the sessions that were served on them.
//!
//! A session is one connection from its first line to its end.
ghost use Rattle.std.specs.Prelude.{◌≡◌};
ghost use Rattle.std.specs.List.{list_all};
ghost use Rattle.mml_serving.specs.Serving.{had_memory};

use crate::socket::Socket;
use mml_session::SessionEnd;

/// The two ends of a connection, with its number, from 1 in the order in which connections come. A gate, with which
/// tests can stop sessions, is called with this number.
#[derive(Drop)]
pub struct Connection<R: Drop, W: Drop> {
    pub number: u8,
    pub reader: R,
    pub writer: W,
}

/// How a session ended, and the two ends of its connection.
#[derive(Drop)]
pub struct EndedSession<R: Drop, W: Drop> {
    pub end: SessionEnd,
    pub connection: Connection<R, W>,
}

/// Returns whether memory sufficed for all these sessions: none ended because memory ran out, and no read or write of
/// their sockets failed for that reason.
pub(crate) fn all_had_memory(sessions: &[EndedSession<Socket, Socket>]) -> bool
    ensures { result ≡ list_all had_memory sessions.now }
{
    sessions.iter().all(|session| had_memory(session))
}

/// Returns whether memory sufficed for a session: it didn't end because memory ran out, and no read or write of its
/// socket failed for that reason.
fn had_memory(session: &EndedSession<Socket, Socket>) -> bool
    ensures { result ≡ had_memory session.now }
{
    let connection = &session.connection;
    !matches!(session.end, SessionEnd::Memory)
        && !connection.reader.end.lacked_memory
        && !connection.writer.end.lacked_memory
}
