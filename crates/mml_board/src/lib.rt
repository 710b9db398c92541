//! The board: the network with its registers, the chosen moves, and how far the run has come.
//!
//! The registers of a node are its pointer p and m, which is true or false. A node is privileged if some rule is
//! enabled there. A grant chooses a move for a node, a release drops it, and a close applies all chosen moves at once.
//! A fault sets a node's registers, a link joins two nodes, and a cut removes a link.
#![tactic(auto)]

mod act;
mod board;
mod choices;
mod clauses;
mod denial;
mod done;
mod effects;
mod event;
mod indexed_network;
pub mod laws;
mod monitor;
mod node_sets;

pub use act::{Act, Anybody, Owners, asker};
pub use board::Board;
pub use clauses::{check, is_teacher};
pub use denial::Denial;
pub use done::Done;
pub use event::{Event, same_event, same_events};
