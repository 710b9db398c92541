//! A lab: identifiers, who takes part, the network at the beginning, and the limits of a run.
#![tactic(auto)]

mod accounts;
mod lab;
mod lab_fault;
pub mod laws;
mod owned;
mod roster;
mod who;

pub use accounts::{Account, is_name};
pub use lab::{Lab, link_count};
pub use lab_fault::{Key, LabFault};
pub use roster::Roster;
pub use who::{Student, Who};

/// The greatest number of events that a run may have.
pub const MAX_EVENTS: u64 = 100_000;

/// The greatest number of connections that there may be at once.
pub const MAX_SESSIONS: u64 = 16;

/// The greatest number of students that a lab may have.
pub const MAX_STUDENTS: u64 = 256;

/// The greatest number of owners that a node may have.
pub const MAX_OWNERS: u64 = 2;

/// The greatest length of a name, in bytes.
pub const MAX_NAME: u64 = 32;

/// The greatest length of a key, in bytes.
pub const MAX_KEY: u64 = 64;
