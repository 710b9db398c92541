//! The kind of the rule that is enabled at each node, found once for the whole report.
//!
//! The kind of a rule is the rule without the partner that a marriage names. The rank of a node is its index in the
//! rising order of identifiers. A configuration is lawful if each link joins two different nodes in both directions,
//! and pointers lead only to neighbours.
ghost use Rattle.std.specs.Prelude.{◌≡◌, ◌<◌, ◌≤◌, length};
ghost use Rattle.mml_rules.specs.Rules.{enabled_kind};
ghost use Rattle.mml_board.specs.World.{configuration};
ghost use Rattle.mml_stable.specs.inside.Kinds.{AreKinds};

use mml_board::Board;
use mml_ids::{MAX_NODES, Rank};
use mml_rules::{Kind, Scene};

/// The greatest number of nodes that a network may have, as the length of a list.
pub(crate) const PLACES: usize = MAX_NODES as usize;

/// Finds the kind of the rule that is enabled at each node, if one is, and writes it into `kinds`, by rank. `kinds`
/// must have an entry for each node.
#[tactic(auto, using(crate::proofs::KindsLemmas::each_kind, std::proofs::lemmas::Bool::Decides::nat_tests))]
pub(crate) fn find_kinds(board: &Board, kinds: &mut [Option<Kind>])
    requires room { length board.now.network.registers ≤ length kinds.old }
    ensures kinds { AreKinds (configuration board.now) kinds.new }
{
    for index in 0..board.size() {
        kinds[index as usize] = board.enabled(Rank::at(index));
    }
}

/// Returns the kind of the rule that is enabled at a node, which must exist, or `None` if none is. Looks it up in
/// `kinds`, which `find_kinds` must have filled.
#[inline(always)]
pub(crate) fn kind_at(board: &Board, kinds: &[Option<Kind>], node: Rank) -> Option<Kind>
    requires node { node < length board.now.network.registers }
    requires kinds { AreKinds (configuration board.now) kinds.now }
    ensures { result ≡ enabled_kind (configuration board.now) node }
{
    // Called only for its contract, which the proof needs: there are at most `MAX_NODES` nodes, and the configuration
    // is lawful.
    let _size = board.size();
    kinds[node.index() as usize]
}
