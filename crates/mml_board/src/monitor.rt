//! The privilege monitor: the set of privileged nodes, updated only near what changed.
//!
//! A node is privileged if some rule is enabled there. The rank of a node is its index in the rising order of
//! identifiers. A network is lawful if each link joins two different nodes in both directions, and pointers lead only
//! to neighbours.
ghost use Rattle.std.specs.Prelude.{◌≡◌, ℕ, ◌<◌, true, length, if◌then◌else◌};
ghost use Rattle.std.specs.FinSet as set;
ghost use Rattle.mml_rules.specs.Network.{configuration_of};
ghost use Rattle.mml_board.specs.inside.Monitor.{is_privileged_node, privileged_set, IsUntouched};

use crate::indexed_network::IndexedNetwork;
use crate::node_sets::with_or_without;
use mml_ids::{NodeSet, Rank};
use mml_rules::{Scene, enabled};

/// Returns the set of the privileged nodes. Tests each node of the network.
pub fn privileged_set(network: &IndexedNetwork) -> NodeSet
    ensures { result ≡ privileged_set (configuration_of network.now) }
{
    let mut nodes = NodeSet::empty();
    for index in 0..network.size() {
        let node = Rank::at(index);
        let is_privileged = enabled(network, node).is_some();
        nodes = with_or_without(nodes, node, is_privileged);
    }
    nodes
}

/// Returns the set of the privileged nodes after a change of the network. `privileged` is the set from before the
/// change, and `changed` must have all nodes whose registers or links have changed. Tests only the nodes in `changed`
/// and their neighbours. All other nodes are in the result exactly if they are in `privileged`.
pub fn refresh(network: &IndexedNetwork, privileged: NodeSet, changed: NodeSet) -> NodeSet
    requires { (j : ℕ) → IsUntouched (configuration_of network.now) changed j →
        set.contains privileged j ≡ is_privileged_node (configuration_of network.now) j }
    ensures { result ≡ privileged_set (configuration_of network.now) }
{
    // Called only for its contract, which the proof needs: the network is lawful.
    let _size = network.size();
    let mut privileged = privileged;
    let mut left = changed;
    while let Some(node) = left.take_least() {
        let around = network.neighbours(node).with(node);
        privileged = refresh_each(network, privileged, around);
    }
    privileged
}

/// Returns the set `privileged` with each of `nodes` tested again: added if it is privileged now, and otherwise
/// removed.
#[tactic(auto, using(crate::proofs::KeptLemmas::each_step))]
fn refresh_each(network: &IndexedNetwork, privileged: NodeSet, nodes: NodeSet) -> NodeSet
    ensures { (j : ℕ) → set.contains result j ≡
        (if set.contains nodes j then is_privileged_node (configuration_of network.now) j
        else set.contains privileged j) }
{
    let mut privileged = privileged;
    let mut left = nodes;
    while let Some(node) = left.take_least() {
        privileged = with_or_without(privileged, node, is_privileged(network, node));
    }
    privileged
}

/// Returns whether the node is privileged. Returns `false` if the rank is past the last node.
fn is_privileged(network: &IndexedNetwork, node: Rank) -> bool
    ensures { result ≡ is_privileged_node (configuration_of network.now) node }
{
    node.index() < network.size() && enabled(network, node).is_some()
}
