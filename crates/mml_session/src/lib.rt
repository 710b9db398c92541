//! Sessions: the lines of a connection, answered in order through a window.
//!
//! A window is one session's view of the published events and board. An account is known on a connection from its
//! granted hello to its bye.
#![tactic(auto)]

mod answering;
mod entry;
mod gate;
mod held;
pub mod laws;
mod observer;
mod session;
mod session_types;
mod setting;

pub use entry::Entry;
pub use gate::{Gate, NoGate, Point};
pub use observer::{Gated, NoObserver, Observer};
pub use session::{Ending, SessionEnd, is_bye, is_hello, serve_observed, serve_one};
pub use session_types::SessionTypes;
pub use setting::Setting;
