//! What an event did, for the reply to it.
//!
//! A grant chooses a move for a node, a release drops it, and a close applies all chosen moves at once. A fault sets a
//! node's registers, a link joins two nodes, and a cut removes a link.
use mml_ids::{NodeSet, Rank};
use mml_rules::Kind;

/// The effect of an event. The reply to the event also has the event's place and the number of the configuration after
/// it, which aren't here.
#[derive(Clone, Copy)]
pub enum Done {
    /// A move of that kind is chosen for the node.
    Move { node: Rank, kind: Kind },
    /// The chosen moves of these nodes were applied.
    Close { moved: NodeSet },
    /// The registers of the node are set, and `dropped` chosen moves were dropped.
    Fault { node: Rank, dropped: u16 },
    /// The two nodes are linked, and `dropped` chosen moves were dropped.
    Link { a: Rank, b: Rank, dropped: u16 },
    /// The two nodes are no longer linked, and `dropped` chosen moves were dropped.
    Cut { a: Rank, b: Rank, dropped: u16 },
    /// The node no longer has a chosen move.
    Release { node: Rank },
}
