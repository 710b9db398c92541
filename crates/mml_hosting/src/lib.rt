//! A house (one run of a lab) whose connections come and go. Each window serves one connection after another, until the
//! teacher says bye at the desk.
//!
//! A house is one run of a lab that threads share: its list of granted events, the board after them, and their journal.
//! A seat serves one connection after another, each through the seat's window. The observer of a seat may record its
//! sessions.
#![tactic(auto)]

mod accepting;
mod begun;
mod class_types;
mod hosted;
mod marks;
mod port_serving;
mod replies;
mod seat;

pub use accepting::{Accept, Accepted, Bell, CutOff};
pub use begun::Begun;
pub use class_types::{ClassTypes, EndsOf, HostedOf, SeatOf};
pub use hosted::{HostFault, Hosted, Observers, no_observers, resume_host, serve_host};
pub use port_serving::{BUSY, serve_port};
pub use replies::{NoReplies, Observed, ReplyObserver};
pub use seat::{Keep, Seat, SeatRecord, ServedSession, serve_in};
