//! The parts of a connection that its threads share.
//!
//! The parts of a connection are its reader, its writer, and its cut-off, by which another thread ends it.
use crate::crowd::Crowd;
use crate::end_reason::EndReason;
use crate::shared_socket::SharedSocket;
use crate::state::HostState;
use std::alloc::Global;
use std::io;
use std::sync::{Arc, Wait};

/// What the parts of a connection share: the host's state, the crowd (the list of the connections that are served at
/// its port), and its socket. The parts are its reader, its writer, and its cut-off, by which another thread ends it.
#[derive(Drop)]
pub struct SharedConnection<'a, Rt> {
    pub rt: &'a Rt,
    pub alloc: Global,
    pub state: &'a HostState,
    pub crowd: &'a Crowd,
    pub is_desk: bool,
    pub socket: Arc<SharedSocket, Global>,
}

impl<'a, Rt> SharedConnection<'a, Rt> {
    /// Returns another handle of this connection, with the same socket, for one more of its parts. Returns an error if
    /// memory runs out.
    pub fn share(&self) -> io::Result<SharedConnection<'a, Rt>> {
        let socket = Arc::try_clone(&self.socket)?;
        Ok(SharedConnection { socket, ..*self })
    }
}

impl<'a, Rt: Wait> SharedConnection<'a, Rt> {
    /// Keeps `why`, the reason why the connection is ended, to be sent to the other side later. Does nothing if a
    /// reason was kept already.
    pub fn note_end_reason(&self, why: EndReason) {
        self.socket.note_end_reason(self.rt, why);
    }
}
