//! One list of events under a lock, and windows, which see the published events and don't take the lock.
//!
//! A house is one run of a lab that threads share: its list of granted events, the board after them, and their journal.
//! The book has the events, the board and the journal of a house, and the desk is the book with its lock. A window is
//! one session's view of the published events and board.
#![tactic(auto)]

mod answer;
mod blank;
mod book;
mod desk;
mod house;
mod log;
mod looking;
mod published;
mod resumed;
mod seeing;
mod showing;
mod sight;
mod tally;
mod window;

pub use answer::Answer;
pub use blank::{Blank, HouseFault, open_house};
pub use book::Book;
pub use desk::Desk;
pub use house::{Brand, House};
pub use log::{Astray, Log};
pub use mml_policy::Refusal;
pub use resumed::{Opened, Resumed, resume_house};
pub use sight::{Closed, SightFault};
pub use window::Window;
