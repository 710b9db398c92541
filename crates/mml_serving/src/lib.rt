//! The server of a fixed number of connections, each of which is served in a thread of its own as soon as it comes.
//!
//! A house is one run of a lab that threads share: its list of granted events, the board after them, and their journal.
//! A window is one session's view of the published events and board.
#![tactic(auto)]

mod announcing;
mod arrivals;
mod connection;
mod number_words;
mod seating;
mod server_types;
mod serving;
mod socket;

pub use announcing::{write_last, write_listening};
pub use arrivals::{Arrivals, HangUp, LetGo};
pub use connection::{Connection, EndedSession};
pub use number_words::{read_connections, read_port};
pub use server_types::{EndedOf, ServedHouseOf, ServerOf, ServerTypes};
pub use serving::{ServeFault, ServedHouse, end_for, serve_arrivals, serve_house_on, serve_on};
pub use socket::{Socket, linger};
