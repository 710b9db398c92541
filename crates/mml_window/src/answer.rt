//! The answers to acts.
//!
//! An act is a request for an event. The place of an event is its number in the list of events, from 1. A clause is a
//! condition under which a request is granted.
use mml_board::Done;
use mml_policy::{Denial, Refusal};

/// The answer to an act.
#[derive(Clone, Copy)]
pub enum Answer {
    /// The act happened as an event with this place and the effect `done`. `number` is the number of the configuration
    /// after the event.
    Granted { place: u64, number: u64, done: Done },
    /// A clause doesn't hold.
    Denied(Denial),
    /// All clauses hold, but the act didn't happen.
    Refused(Refusal),
}
