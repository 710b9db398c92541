use crate::open_link::OpenLink;
use mml_ids::{Items, Rank};
use mml_rules::Kind;

/// The report on a configuration. Each list is in rising order. A node is privileged if some rule is enabled there. A
/// pair is two nodes that point at each other, a free node is in no pair, and a link is open if both its ends are free.
#[derive(Drop)]
pub struct Report {
    /// The number of the configuration.
    pub at: u64,
    /// The nodes that point at each other, the lower one first.
    pub pairs: Items<(Rank, Rank)>,
    /// The nodes that are in no pair.
    pub free: Items<Rank>,
    /// The privileged nodes, each with the rule that is enabled there.
    pub privileged: Items<(Rank, Kind)>,
    /// The links between free nodes.
    pub open_links: Items<OpenLink>,
    /// Whether no node is privileged.
    pub stable: bool,
}
