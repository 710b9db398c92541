//! A close: the chosen moves are applied at once, so each effect is computed before one is written.
//!
//! The registers of a node are its pointer p and m, which is true or false. An effect is the registers of a node after
//! its chosen move. The rank of a node is its index in the rising order of identifiers. A network is lawful if each
//! link joins two different nodes in both directions, and pointers lead only to neighbours.
ghost use Rattle.std.specs.Prelude.{◌≡◌, ℕ, ◌<◌, true, Some, length, if◌then◌else◌};
ghost use Rattle.std.specs.FinSet as set;
ghost use Rattle.mml_rules.specs.declared.rule.Rule.{Rule};
ghost use Rattle.mml_rules.specs.Network.{neighbours_at, registers_at, configuration_of};
ghost use Rattle.mml_rules.specs.Rules.{guard, moved, AllHold};
ghost use Rattle.mml_board.specs.World.{chosen_at};
ghost use Rattle.mml_board.specs.inside.Kept.{AreChosen};

use crate::choices::Choices;
use crate::indexed_network::IndexedNetwork;
use mml_ids::{NodeSet, Rank};
use mml_rules::{Regs, Rule, Scene, effect};

/// Applies all chosen moves to the network at once. The guard of each must hold at its node. `effects` is working
/// memory for the new registers; its former contents don't matter. `effects` and `chosen` must have an entry for each
/// node.
pub fn move_chosen(network: &mut IndexedNetwork, effects: &mut [Regs], chosen: &Choices)
    requires choices { length chosen.now ≡ length network.old.registers }
    requires room { length effects.old ≡ length network.old.registers }
    requires hold { AllHold (configuration_of network.old) (chosen_at chosen.now) }
    ensures room { length effects.new ≡ length effects.old }
    ensures neighbours { network.new.neighbours ≡ network.old.neighbours }
    ensures size { length network.new.registers ≡ length network.old.registers }
    ensures registers { (i : ℕ) → registers_at network.new.registers i ≡
        moved (configuration_of network.old) i (chosen_at chosen.now i) }
{
    // Called only for its contract, which the proof needs: the network is lawful.
    let _size = network.size();
    let nodes = chosen.nodes();
    compute_effects(network, effects, chosen, nodes);
    write_effects(network, effects, nodes);
}

/// Computes the registers of each of `nodes` after its chosen move, and writes them into `effects`, by rank. `effects`
/// and `chosen` must have an entry for each node. `nodes` are the nodes that have a chosen move, and the guard of each
/// move must hold.
#[tactic(auto, using(crate::proofs::KeptLemmas::each_step))]
fn compute_effects(network: &IndexedNetwork, effects: &mut [Regs], chosen: &Choices, nodes: NodeSet)
    requires choices { length chosen.now ≡ length network.now.registers }
    requires room { length effects.old ≡ length network.now.registers }
    requires hold { AllHold (configuration_of network.now) (chosen_at chosen.now) }
    requires nodes { AreChosen chosen.now nodes }
    ensures room { length effects.new ≡ length effects.old }
    ensures effects { (i : ℕ) → registers_at effects.new i ≡
        (if set.contains nodes i then moved (configuration_of network.now) i (chosen_at chosen.now i)
        else registers_at effects.old i) }
{
    let mut left = nodes;
    while let Some(node) = left.take_least() {
        effects[node.index() as usize] = moved(network, node, chosen.at(node));
    }
}

/// Returns the registers that a node, which must exist, has after its chosen move `rule`, whose guard must hold there.
/// Returns the node's present registers if `rule` is `None`.
fn moved(network: &IndexedNetwork, node: Rank, rule: Option<Rule>) -> Regs
    requires node { node < length network.now.registers }
    requires holds { (r : Rule) → rule ≡ Some r →
        guard (configuration_of network.now) node r ≡ true }
    ensures { result ≡ moved (configuration_of network.now) node rule }
{
    // Called only for its contract, which the proof needs: the network is lawful.
    let _size = network.size();
    match rule {
        Some(rule) => effect(network, node, rule),
        None => network.regs(node),
    }
}

/// Writes the new registers of each of `nodes` into the network. `effects` has these registers by rank, with an entry
/// for each node of the network. Their pointers must be null or lead to neighbours.
#[tactic(auto, using(crate::proofs::KeptLemmas::each_step))]
fn write_effects(network: &mut IndexedNetwork, effects: &[Regs], nodes: NodeSet)
    requires room { length effects.now ≡ length network.old.registers }
    requires within { (i : ℕ) → set.contains nodes i ≡ true → i < length network.old.registers }
    requires linked { (i j : ℕ) → set.contains nodes i ≡ true →
        (registers_at effects.now i).p ≡ Some j →
        set.contains (neighbours_at network.old.neighbours i) j ≡ true }
    ensures neighbours { network.new.neighbours ≡ network.old.neighbours }
    ensures size { length network.new.registers ≡ length network.old.registers }
    ensures registers { (i : ℕ) → registers_at network.new.registers i ≡
        (if set.contains nodes i then registers_at effects.now i
        else registers_at network.old.registers i) }
{
    let mut left = nodes;
    while let Some(node) = left.take_least() {
        network.set_registers(node, effects[node.index() as usize]);
    }
}
