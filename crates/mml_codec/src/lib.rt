//! Requests and replies as lines of JSON.
//!
//! A ruling is what the policy decides about a command. A `Greeting` is the result of a request before that: the reply
//! to a hello or a bye, or to any request while nobody is known.
#![tactic(auto)]

mod greeting;
pub mod laws;
mod list_rows;
mod list_writing;
mod listed;
mod object;
mod reply;
mod reply_rows;
mod reply_value;
mod reply_writing;
mod request;
mod request_reading;
mod request_writing;
mod ruling_reply;
mod table;

pub use greeting::{Greeted, Greeting, greet, greet_into};
pub use mml_plain::LineScratch;
pub use reply::{
    FULL_LINE, JOURNAL_LINE, MALFORMED_LINE, MEMORY_LINE, REPLY_ROOM, Refused, Reply, put_in,
};
pub use reply_writing::{append_reply, tell_reply, write_reply};
pub use request::{LineFault, Request};
pub use request_reading::{read_request, read_request_with};
pub use request_writing::write_request;
pub use ruling_reply::{reply_of, reply_of_done};

/// The most bytes of a request line, without its newline.
pub const MAX_REQUEST: usize = 4096;
