//! Networks: links and registers.
//!
//! The registers of a node are its pointer p and m, which is true or false. The rank of a node is its index in the
//! rising order of identifiers. A network stores the neighbours and the registers of each node, by rank.
ghost use Rattle.std.specs.FinSet as set;
ghost use Rattle.std.specs.Prelude.{◌≡◌, ◌≢◌, ℕ, ◌<◌, length, true, Some, IfOk};
ghost use Rattle.mml_rules.specs.Network.{neighbours_at, registers_at, IsNetwork, with_neighbour, without_neighbour, unpointed};
ghost use Rattle.mml_rules.specs.Network.{with_registers, with_link, without_link};

use crate::Regs;
use mml_ids::{Memory, NodeSet, Rank};
use std::alloc::Global;
use std::marker::Model;

/// The links and the registers of a network, listed by rank.
#[derive(Drop)]
pub struct Network {
    neighbours: Vec<NodeSet>,
    registers: Vec<Regs>,
}

impl Model for Network {
    ghost use Rattle.mml_rules.specs.Network.{Network, IsNetwork};
    ghost use Rattle.std.specs.Coded.{codes};
    ghost use Rattle.mml_ids.specs.Sets.{node_set_code};

    ghost Value = { Network };

    ghost coded = { Prim.hlevel (codes, node_set_code) };

    ghost view = { λ a. record { neighbours = a.neighbours.items; registers = a.registers.items } };

    ghost invariant = { λ a. IsNetwork (record { neighbours = a.neighbours.items; registers = a.registers.items }) };
}

impl Network {
    /// Returns the network with these neighbours and these registers of each node, both listed by rank. Both lists must
    /// have one entry for each node, and there may be at most 256 nodes. Links must join two different nodes in both
    /// directions, and pointers must lead only to neighbours.
    pub fn of(neighbours: Vec<NodeSet>, registers: Vec<Regs>) -> Network
        requires { IsNetwork (record { neighbours = neighbours.items; registers = registers.items }) }
        ensures { result ≡ record { neighbours = neighbours.items; registers = registers.items } }
    {
        Network {
            neighbours,
            registers,
        }
    }

    /// Returns a copy of the network. Returns `Memory` if memory runs out.
    pub fn try_copy(&self, alloc: Global) -> Result<Network, Memory>
        ensures { IfOk result (λ network. network ≡ self.now) }
    {
        let neighbours = Vec::from_slice(alloc, &self.neighbours)?;
        let registers = Vec::from_slice(alloc, &self.registers)?;
        Ok(Network {
            neighbours,
            registers,
        })
    }

    /// Returns the nodes that are linked to a node. Returns no nodes if the rank is past the last node.
    pub fn neighbours(&self, node: Rank) -> NodeSet
        ensures { result ≡ neighbours_at self.now.neighbours node }
    {
        match self.neighbours.get(node.index() as usize) {
            Some(row) => *row,
            None => NodeSet::empty(),
        }
    }

    /// Returns the registers of a node, which must exist.
    pub fn registers(&self, node: Rank) -> Regs
        requires { node < length self.now.registers }
        ensures { result ≡ registers_at self.now.registers node }
    {
        self.registers[node.index() as usize]
    }

    /// Returns the number of nodes. The ranks of the nodes are the numbers below this number.
    pub fn size(&self) -> u64
        ensures size { result ≡ length self.now.registers }
        ensures network { IsNetwork self.now }
    {
        self.registers.len() as u64
    }

    /// Sets the registers of a node, which must exist. p must be null or a neighbour.
    pub fn set_registers(&mut self, node: Rank, registers: Regs)
        requires node { node < length self.old.registers }
        requires linked { (j : ℕ) → registers.p ≡ Some j →
            set.contains (neighbours_at self.old.neighbours node) j ≡ true }
        ensures { self.new ≡ with_registers self.old node registers }
    {
        self.registers[node.index() as usize] = registers;
    }

    /// Links two different nodes, which must exist. Changes nothing if they are linked already.
    pub fn link(&mut self, a: Rank, b: Rank)
        requires a { a < length self.old.registers }
        requires b { b < length self.old.registers }
        requires apart { a ≢ b }
        ensures { self.new ≡ with_link self.old a b }
    {
        link_one_way(&mut self.neighbours, a, b);
        link_one_way(&mut self.neighbours, b, a);
    }

    /// Removes the link between two nodes, if there is one, and sets the pointers along it to null. The nodes must
    /// exist.
    pub fn cut(&mut self, a: Rank, b: Rank)
        requires a { a < length self.old.registers }
        requires b { b < length self.old.registers }
        ensures { self.new ≡ without_link self.old a b }
    {
        cut_one_way(&mut self.neighbours, a, b);
        cut_one_way(&mut self.neighbours, b, a);
        unpoint(&mut self.registers, a, b);
        unpoint(&mut self.registers, b, a);
    }
}

/// Adds `b` to the neighbours of the node `a`, which must exist. `neighbours` has the neighbours of each node, by rank.
fn link_one_way(neighbours: &mut [NodeSet], a: Rank, b: Rank)
    requires { a < length neighbours.old }
    ensures { neighbours.new ≡ with_neighbour neighbours.old a b }
{
    let row = neighbours[a.index() as usize].with(b);
    neighbours[a.index() as usize] = row;
}

/// Removes `b` from the neighbours of the node `a`, which must exist. `neighbours` has the neighbours of each node, by
/// rank.
fn cut_one_way(neighbours: &mut [NodeSet], a: Rank, b: Rank)
    requires { a < length neighbours.old }
    ensures { neighbours.new ≡ without_neighbour neighbours.old a b }
{
    let row = neighbours[a.index() as usize].except(b);
    neighbours[a.index() as usize] = row;
}

/// Sets the pointer of the node `a`, which must exist, to null if it leads to `b`, and otherwise changes nothing.
/// `registers` has the registers of each node, by rank.
fn unpoint(registers: &mut [Regs], a: Rank, b: Rank)
    requires { a < length registers.old }
    ensures { registers.new ≡ unpointed registers.old a b }
{
    if registers[a.index() as usize].p == Some(b) {
        registers[a.index() as usize].p = None;
    }
}
