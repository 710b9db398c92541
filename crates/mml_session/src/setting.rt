//! What all sessions of a house share.
//!
//! A house is one run of a lab that threads share: its list of granted events, the board after them, and their journal.
//! The desk has these three under a lock.
use mml_journal::Sink;
use mml_window::{Desk, House};
use std::alloc::Global;

/// What all sessions of a house share: the runtime, the allocator, and the desk, which decides acts.
#[derive(Drop)]
pub struct Setting<'a, Rt, S: Sink, H: House> {
    pub rt: &'a Rt,
    pub alloc: Global,
    pub desk: &'a Desk<S, H>,
}
