//! The list of the chosen moves, and the set of the nodes that have one.
//!
//! A chosen move is a rule that is to be applied at a node. A grant chooses it, and it stays chosen until it is
//! released, or until a close, a fault, a link or a cut. The rank of a node is its index in the rising order of
//! identifiers. `rules` has the chosen move of each node, by rank, and `nodes` the set of the nodes that have one.
ghost use Rattle.std.specs.Prelude.{◌≡◌, ℕ, ◌<◌, None, length, replicate, slice_set, is_some, IfOk};
ghost use Rattle.std.specs.FinSet as set;
ghost use Rattle.std.specs.List.{list_any};
ghost use Rattle.mml_board.specs.World.{chosen_at};
ghost use Rattle.mml_board.specs.inside.Kept.{AreChosen};

use crate::node_sets::{is_empty, with_or_without};
use mml_ids::{Memory, NodeSet, Rank};
use mml_rules::Rule;
use std::alloc::Global;
use std::marker::Model;

/// For each node its chosen move, if it has one. Contracts see the list of these, by rank.
#[derive(Drop)]
pub struct Choices {
    // the chosen move of each node, by rank
    rules: Vec<Option<Rule>>,
    // the nodes that have a chosen move
    nodes: NodeSet,
}

impl Model for Choices {
    ghost use Rattle.std.specs.Prelude.{Option, List};
    ghost use Rattle.mml_rules.specs.declared.rule.Rule.{Rule};
    ghost use Rattle.mml_board.specs.inside.Kept.{AreChosen};

    ghost Value = { List (Option Rule) };

    ghost view = { λ a. a.rules.items };

    ghost invariant = { λ a. AreChosen a.rules.items a.nodes };
}

impl Choices {
    /// Returns the choices of `count` nodes, none of which has a chosen move. Returns `Memory` if memory runs out.
    #[tactic(auto, using(crate::proofs::ChoicesLemmas::without_moves))]
    pub fn none(alloc: Global, count: usize) -> Result<Choices, Memory>
        ensures { IfOk result (λ choices. choices ≡ replicate count None) }
    {
        let rules = vec![in alloc; None; count]?;
        Ok(Choices {
            rules,
            nodes: NodeSet::empty(),
        })
    }

    /// Returns a copy of the choices. Returns `Memory` if memory runs out.
    pub fn try_copy(&self, alloc: Global) -> Result<Choices, Memory>
        ensures { IfOk result (λ choices. choices ≡ self.now) }
    {
        let rules = Vec::from_slice(alloc, &self.rules)?;
        Ok(Choices {
            rules,
            nodes: self.nodes,
        })
    }

    /// Returns the chosen move of a node, or `None` if it has none or the rank is past the last node.
    pub fn at(&self, node: Rank) -> Option<Rule>
        ensures { result ≡ chosen_at self.now node }
    {
        match self.rules.get(node.index() as usize) {
            Some(rule) => *rule,
            None => None,
        }
    }

    /// Returns the nodes that have a chosen move.
    pub fn nodes(&self) -> NodeSet
        ensures { AreChosen self.now result }
    {
        self.nodes
    }

    /// Returns whether some node has a chosen move.
    pub fn is_any(&self) -> bool
        ensures { result ≡ list_any is_some self.now }
    {
        !is_empty(self.nodes)
    }

    /// Makes `rule` the chosen move of a node, which must exist. If `rule` is `None`, the node has no chosen move
    /// afterwards.
    pub fn choose(&mut self, node: Rank, rule: Option<Rule>)
        requires { node < length self.old }
        ensures { self.new ≡ slice_set self.old node rule }
    {
        // A reference is used because the toolchain doesn't copy a value that contains a rank, even if its type is
        // `Copy`.
        let rule = &rule;
        self.rules[node.index() as usize] = *rule;
        self.nodes = with_or_without(self.nodes, node, rule.is_some());
    }

    /// Drops every chosen move.
    #[tactic(auto, using(crate::proofs::ChoicesLemmas::without_moves))]
    pub fn drop_all(&mut self)
        ensures { self.new ≡ replicate (length self.old) None }
    {
        drop_each(&mut self.rules, self.nodes);
        self.nodes = NodeSet::empty();
    }
}

/// Sets every entry of `rules`, the chosen moves by rank, to `None`. `nodes` must have exactly the nodes that have a
/// chosen move.
fn drop_each(rules: &mut [Option<Rule>], nodes: NodeSet)
    requires { AreChosen rules.old nodes }
    ensures { rules.new ≡ replicate (length rules.old) None }
{
    let mut left = nodes;
    while let Some(node) = left.take_least() {
        rules[node.index() as usize] = None;
    }
}
