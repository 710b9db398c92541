//! The server of one thread. This server answers the requests of many connections one after another, and runs scripts
//! of such requests.
//!
//! A hall is this server: its lab, its world, its events, its journal, and who is known on each connection.
#![tactic(auto)]

mod hall;
pub mod laws;
mod local;
mod script;
mod script_line;

pub use hall::Hall;
pub use local::Local;
pub use mml_audit::{AuditFault, audit};
pub use script::{ScriptFault, run_script};

/// The most bytes of a script line, without its newline: a connection's number of at most two digits, a space and a
/// request.
pub const MAX_SCRIPT_LINE: usize = 4099;
