//! Open links, as a report lists them.
//!
//! A node is privileged if some rule is enabled there. A free node is in no pair of nodes that point at each other.
use mml_ids::Rank;
use mml_rules::Kind;

/// A link between two free nodes, the lower one first. The witness is a privileged node, which shows that the
/// configuration isn't stable.
#[derive(Clone, Copy)]
pub struct OpenLink {
    pub a: Rank,
    pub b: Rank,
    /// The witness.
    pub node: Rank,
    /// The rule that is enabled at the witness.
    pub kind: Kind,
}
