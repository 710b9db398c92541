//! Operations on sets of nodes, with the contracts that the proofs of their callers need.
//!
//! The rank of a node is its index in the rising order of identifiers.
ghost use Rattle.std.specs.Prelude.{◌≡◌, ◌↔◌, ℕ, ◌==◌, IsTrue, if◌then◌else◌};
ghost use Rattle.std.specs.FinSet as set;

use mml_ids::{NodeSet, Rank};

/// Returns the set of the two nodes `a` and `b`.
pub fn link_ends(a: Rank, b: Rank) -> NodeSet
    ensures { result ≡ set.insert (set.insert set.empty a) b }
{
    NodeSet::empty().with(a).with(b)
}

/// Returns the set with `node` in it if `is_in` is true, and otherwise without it. The other ranks stay as they are.
#[tactic(auto, using(mml_ids::specs::inside::WordsLemmas::has_insert, mml_ids::specs::inside::WordsLemmas::has_remove))]
pub fn with_or_without(nodes: NodeSet, node: Rank, is_in: bool) -> NodeSet
    ensures { (j : ℕ) → set.contains result j ≡
        (if j == node then is_in else set.contains nodes j) }
{
    if is_in {
        nodes.with(node)
    } else {
        nodes.except(node)
    }
}

/// Returns whether no rank is in the set.
pub fn is_empty(nodes: NodeSet) -> bool
    ensures { IsTrue result ↔ (nodes ≡ set.empty) }
{
    nodes.greatest().is_none()
}
