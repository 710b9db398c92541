//! The ports of a host, which accept connections over sockets, let them wait for seats, and close them after they left.
//!
//! A seat is a part of the server that serves one connection after another.
#![tactic(auto)]

mod connection;
mod crowd;
mod end_reason;
mod parting;
mod port;
mod shared_socket;
mod socket_reader;
mod socket_replies;
mod socket_writer;
mod state;
mod two_ports;

pub use connection::SharedConnection;
pub use crowd::Crowd;
pub use end_reason::EndReason;
pub use parting::Partings;
pub use port::{EndBell, Port};
pub use shared_socket::SharedSocket;
pub use socket_reader::{DESK_GREETING, GREETING, Incoming, NEXT_LINE, SocketReader};
pub use socket_replies::SocketReplies;
pub use socket_writer::{ReplyWriter, SocketCutOff, SocketSession, SocketWriter, WRITE_LIMIT};
pub use state::HostState;
pub use two_ports::{ListenFault, Ports, TwoPorts, bell_of, listen_at, open_ports};
