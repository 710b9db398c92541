//! How a house has ended, in a form that tests can compare.
//!
//! A house is one run of a lab that threads share. Its log is its result: the list of events, the board after them, and
//! the journal's sink. There is no log if the windows of its sessions don't have exactly one place for each event
//! (`Astray`).
use mml_journal::{MemorySink, Sink};
use mml_window::{Astray, Log};

/// How a house has ended, as values that a test can compare.
#[derive(Clone, Copy, Debug, PartialEq, Eq)]
pub enum Ending {
    /// The house left a log: the number of events, the number of the last configuration, and whether the journal was
    /// halted.
    Log {
        events: usize,
        number: u64,
        halted: bool,
    },
    /// The windows that were returned don't have exactly one place for each event. That happens if a window is missing.
    Astray(Astray),
}

/// Returns how a house has ended: the counts of its log, or its `Astray`. `end` is the result of ending the house.
pub fn ending_of<S: Sink>(end: &Result<Log<S>, Astray>) -> Ending {
    match end {
        Ok(log) => Ending::Log {
            events: log.events.as_slice().len(),
            number: log.board.number(),
            halted: log.halted,
        },
        Err(astray) => Ending::Astray(*astray),
    }
}

/// Returns whether a house has left a log whose sink has exactly the text `journal`.
pub fn has_journal(end: &Result<Log<MemorySink>, Astray>, journal: &str) -> bool {
    match end {
        Ok(log) => log.sink.bytes() == journal.as_bytes(),
        Err(_) => false,
    }
}
