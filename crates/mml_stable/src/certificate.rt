//! The witnesses of open links.
//!
//! A node is privileged if some rule is enabled there. A link is open if neither of its ends is in a pair of nodes that
//! point at each other. The kind of a rule is the rule without the partner that a marriage names. The rank of a node is
//! its index in the rising order of identifiers. A configuration is lawful if each link joins two different nodes in
//! both directions, and pointers lead only to neighbours.
ghost use Rattle.std.specs.Prelude.{◌≡◌, ◌<◌, true, false, length};
ghost use Rattle.mml_rules.specs.declared.rule.Rule.{Rule};
ghost use Rattle.mml_rules.specs.Rules.{is_married, guard, kind_of, enabled_kind};
ghost use Rattle.mml_board.specs.World.{configuration};
ghost use Rattle.mml_stable.specs.Walk.{top, walk, certificate};
ghost use Rattle.mml_stable.specs.inside.Kinds.{AreKinds};

use crate::kinds::{PLACES, find_kinds, kind_at};
use mml_board::Board;
use mml_ids::Rank;
use mml_rules::{Kind, Scene};

/// Returns the witness of the link between the nodes `a` and `b`, which must be linked and free (in no pair), with `a`
/// below `b`. The witness is a privileged node, with the kind of the rule that is enabled there. So as long as there is
/// such a link, the configuration isn't stable.
pub fn certify(board: &Board, a: Rank, b: Rank) -> (Rank, Kind)
    requires lower { a < b }
    requires linked { (configuration board.now).linked a b ≡ true }
    requires free_a { is_married (configuration board.now) a ≡ false }
    requires free_b { is_married (configuration board.now) b ≡ false }
    ensures certificate { result ≡ certificate (configuration board.now) a b }
    ensures node { result.0 < length board.now.network.registers }
    ensures holds { (rule : Rule) × (kind_of rule ≡ result.1)
        × (guard (configuration board.now) result.0 rule ≡ true) }
{
    // Called only for its contract, which the proof needs: there are at most `MAX_NODES` nodes, and the configuration
    // is lawful.
    let _size = board.size();
    let mut kinds = [None; PLACES];
    find_kinds(board, &mut kinds);
    witness(board, &kinds, a, b)
}

/// Returns the witness of a link between two free nodes (in no pair), `a` and the greater `b`, which must exist. The
/// witness is a privileged node, with the kind of the rule that is enabled there. It is what `witness_from` returns for
/// `a`, or else what it returns for `b`. If both calls return `None`, it is `a`, at which a seduction is then enabled.
/// `kinds` has the kind of the rule that is enabled at each node, by rank.
#[tactic(auto, unfolding(crate::specs::Walk::certificate))]
pub(crate) fn witness(board: &Board, kinds: &[Option<Kind>], a: Rank, b: Rank) -> (Rank, Kind)
    requires kinds { AreKinds (configuration board.now) kinds.now }
    requires a { a < length board.now.network.registers }
    requires b { b < length board.now.network.registers }
    ensures { result ≡ certificate (configuration board.now) a b }
{
    if let Some(found) = witness_from(board, kinds, a) {
        return found;
    }
    witness_from(board, kinds, b).unwrap_or((a, Kind::Seduction))
}

/// Follows the pointers from `node`, which must exist, to the first node that is privileged or points at no node, as
/// `end_of_walk` does. Returns this node with the kind of the rule that is enabled there. Returns `None` if no rule is
/// enabled there, or if the rule is a seduction. `kinds` has the kind of the rule that is enabled at each node, by
/// rank.
fn witness_from(board: &Board, kinds: &[Option<Kind>], node: Rank) -> Option<(Rank, Kind)>
    requires kinds { AreKinds (configuration board.now) kinds.now }
    requires node { node < length board.now.network.registers }
    ensures { result ≡ walk (configuration board.now) node }
{
    let (last, enabled) = end_of_walk(board, kinds, node);
    match enabled {
        Some(Kind::Seduction) | None => None,
        Some(kind) => Some((last, kind)),
    }
}

/// Follows the pointers from `node`, which must exist, to the first node that is privileged or points at no node.
/// Returns this node, with the kind of the rule that is enabled there, or `None` if none is. If there is no such node
/// within as many steps as there are nodes, returns the node that the last step reached. `kinds` has the kind of the
/// rule that is enabled at each node, by rank.
#[tactic(auto, using(crate::proofs::WalkLemmas::top_is, crate::proofs::WalkLemmas::climb_null))]
fn end_of_walk(board: &Board, kinds: &[Option<Kind>], node: Rank) -> (Rank, Option<Kind>)
    requires kinds { AreKinds (configuration board.now) kinds.now }
    requires node { node < length board.now.network.registers }
    ensures top { result.0 ≡ top (configuration board.now) node }
    ensures enabled { result.1 ≡ enabled_kind (configuration board.now) result.0 }
{
    let mut at = node;
    for step in 0..board.size() {
        let enabled = kind_at(board, kinds, at);
        if enabled.is_some() {
            return (at, enabled);
        }
        match board.p(at) {
            Some(next) => at = next,
            None => return (at, None),
        }
    }
    (at, kind_at(board, kinds, at))
}
