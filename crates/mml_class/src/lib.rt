//! The record of a class: the texts of all its seats, beside the list of events of its journal.
//!
//! A seat serves one connection after another, each through the seat's window. The text of a seat has the lines of its
//! sessions with their replies.
#![tactic(auto)]

mod begun;
mod class_record;
mod findings;
mod granting;
mod seats;

pub use class_record::{ClassFault, ClassRecord, MAX_RECORD, read_class};
pub use granting::{Misgranted, find_misgranted};
pub use seats::{SeatFault, Seats};
