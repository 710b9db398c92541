//! Engines, which answer the commands of known participants, and the turn of one line over any engine.
#![tactic(auto)]

mod answering;
mod engine;
pub mod laws;

pub use answering::answer_line;
pub use engine::{Closed, Engine};
