//! Identifiers and ranks of nodes, sets of ranks, and the basic types that every crate above shares.
#![tactic(auto)]

mod condition;
mod id_table;
mod items;
pub mod laws;
mod memory;
mod node_id;
mod node_set;
mod piece;
mod rank;
mod word;

pub use condition::need;
pub use id_table::{IdFault, IdTable};
pub use items::Items;
pub use memory::Memory;
pub use node_id::NodeId;
pub use node_set::NodeSet;
pub use piece::{
    Piece, make_room, put, take_text, truth_text, with_bytes, with_number, with_short_number,
    with_text,
};
pub use rank::Rank;
pub use word::Word;

/// The greatest number of nodes that a network may have. Ranks are below this number.
pub const MAX_NODES: u64 = 256;

/// The greatest identifier. The least is 1.
pub const MAX_ID: u64 = 65535;
