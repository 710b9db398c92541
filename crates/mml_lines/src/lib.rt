//! Reading lines, buffering lines that are written together, and whole reads and writes.
#![tactic(auto)]

mod counted;
pub mod laws;
mod line_rest;
mod lines;
mod outgoing;
mod whole_reading;
mod write_fault;

pub use line_rest::{LineRest, REST_ROOM};
pub use lines::{Lines, MAX_LIMIT, MAX_READS, READ_SIZE, Step};
pub use outgoing::{OUTGOING_BYTES, OUTGOING_LINES, Outgoing};
pub use whole_reading::{WholeFault, read_whole};
pub use write_fault::{WriteFault, put_all, put_both};
