//! The folder in which a class is recorded: one file for each seat, and the files that are needed to read them.
//!
//! A seat is a part of the server that serves one connection after another.
#![tactic(auto)]

mod budgets;
mod folder;
mod paths;
mod record_sink;
mod record_state;
mod seats;
mod tail;

pub use budgets::{BUDGET, Budgets, STRANGER, SeatBudget};
pub use folder::RecordFolder;
pub use paths::is_plain;
pub use record_sink::RecordSink;
pub use record_state::{RecordState, end_syncing, sync_until_done};
pub use seats::{MOST, Seats};
pub use tail::whole_entries;
