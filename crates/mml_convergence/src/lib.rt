//! Laws about the end of a run: why it ends, in which configuration, and how soon. No code depends on them. The laws in
//! `bounds` state the greatest numbers of moves and rounds.
#![tactic(auto)]

pub mod bounds;
pub mod laws;
