//! The standard streams of a program, and readers and writers that retry a call if a signal interrupts it.
#![tactic(auto)]

mod retrying;
mod streams;

pub use retrying::Retrying;
pub use streams::hold_streams;
