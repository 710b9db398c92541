//! A network with an index: sets of nodes, by which a question about a node is answered in a few machine instructions.
//!
//! The rank of a node is its index in the rising order of identifiers. The registers of a node are its pointer p and m,
//! which is true or false. The suitors of a node are the nodes that point at it. Its candidates are its neighbours of
//! higher rank that point at no node and have m false. A network is lawful if each link joins two different nodes in
//! both directions, and pointers lead only to neighbours.
//!
//! The index is three parts: `suitors` has the suitors of each node, by rank; `free` has the nodes that point at no
//! node; and `believing` has the nodes whose m is true.
ghost use Rattle.std.specs.Prelude.{◌≡◌, ◌≢◌, ℕ, ◌<◌, length, true, Some, IfOk, if◌then◌else◌};
ghost use Rattle.std.specs.FinSet as set;
ghost use Rattle.mml_rules.specs.Rules.{is_candidate};
ghost use Rattle.mml_rules.specs.Network.{neighbours_at, configuration_of, unpointed, with_registers, with_link, without_link};
ghost use Rattle.mml_board.specs.inside.Rows.{with_suitor, without_suitor};

use crate::node_sets::{is_empty, with_or_without};
use mml_ids::{Memory, NodeSet, Rank};
use mml_rules::{Network, Regs, Scene};
use std::alloc::Global;
use std::marker::Model;

/// A network with an index, sets of nodes that answer questions about it quickly. Contracts see only the network.
#[derive(Drop)]
pub struct IndexedNetwork {
    network: Network,
    // the nodes that point at each node, by rank
    suitors: Vec<NodeSet>,
    // the nodes that point at no node
    free: NodeSet,
    // the nodes whose m is true
    believing: NodeSet,
}

impl Model for IndexedNetwork {
    ghost use Rattle.std.specs.Prelude.{length};
    ghost use Rattle.std.specs.Coded.{codes};
    ghost use Rattle.mml_ids.specs.Sets.{node_set_code};
    ghost use Rattle.mml_rules.specs.Network.{Network};
    ghost use Rattle.mml_board.specs.inside.Rows.{AreRows};

    ghost Value = { Network };

    ghost coded = { Prim.hlevel (codes, node_set_code) };

    ghost view = { λ a. a.network };

    ghost invariant = { λ a. AreRows a.network.registers (length a.network.registers) a.suitors.items a.free a.believing };
}

impl Scene for IndexedNetwork {
    ghost shown = { λ network. network };

    /// Returns the network without its index.
    fn network(&self) -> &Network {
        &self.network
    }

    /// Returns whether some neighbour points at the node, which must exist: whether the node's set of suitors isn't
    /// empty.
    fn has_suitor(&self, node: Rank) -> bool {
        // Called only for its contract, which the proof needs: the network is lawful.
        let _size = self.network.size();
        !is_empty(self.suitors[node.index() as usize])
    }

    /// Returns the neighbour that a seduction of the node would choose, the greatest of the node's candidates. Returns
    /// `None` if the node has no candidate. The node must exist.
    #[tactic(auto, using(crate::proofs::RowsLemmas::greatest_told))]
    fn greatest_candidate(&self, node: Rank) -> Option<Rank> {
        // Called only for its contract, which the proof needs: the network is lawful.
        let _size = self.size();
        self.candidates(node).greatest()
    }
}

impl IndexedNetwork {
    /// Copies a network, and builds its index. Returns `Memory` if memory runs out.
    pub fn new(alloc: Global, network: &Network) -> Result<IndexedNetwork, Memory>
        ensures { IfOk result (λ indexed. indexed ≡ network.now) }
    {
        let network = network.try_copy(alloc)?;
        let mut suitors = vec![in alloc; NodeSet::empty(); network.size() as usize]?;
        let mut free = NodeSet::empty();
        let mut believing = NodeSet::empty();
        for index in 0..network.size() {
            let node = Rank::at(index);
            // A reference is used because the toolchain doesn't copy a value that contains a rank, even if its type is
            // `Copy`.
            let registers = &network.registers(node);
            put_suitor(&mut suitors, registers.p, node, true);
            free = with_or_without(free, node, registers.p.is_none());
            believing = with_or_without(believing, node, registers.m);
        }
        Ok(IndexedNetwork {
            network,
            suitors,
            free,
            believing,
        })
    }

    /// Returns a copy of the network and its index. Returns `Memory` if memory runs out.
    pub fn try_copy(&self, alloc: Global) -> Result<IndexedNetwork, Memory>
        ensures { IfOk result (λ indexed. indexed ≡ self.now) }
    {
        let network = self.network.try_copy(alloc)?;
        let suitors = Vec::from_slice(alloc, &self.suitors)?;
        Ok(IndexedNetwork {
            network,
            suitors,
            free: self.free,
            believing: self.believing,
        })
    }

    /// Returns the candidates of a node, which must exist. A seduction of the node chooses the greatest of them.
    #[tactic(auto, using(crate::proofs::RowsLemmas::candidates_read))]
    fn candidates(&self, node: Rank) -> NodeSet
        requires { node < length self.now.registers }
        ensures { (j : ℕ) → set.contains result j ≡
            is_candidate (configuration_of self.now) node j }
    {
        // Called only for its contract, which the proof needs: the network is lawful.
        let _size = self.network.size();
        let free_neighbours = self.network.neighbours(node).both(self.free);
        let unmarried = free_neighbours.without(self.believing);
        unmarried.both(NodeSet::above(node))
    }

    /// Sets the registers of a node, which must exist, and updates the index. p must be null or a neighbour.
    pub fn set_registers(&mut self, node: Rank, registers: Regs)
        requires node { node < length self.old.registers }
        requires linked { (j : ℕ) → registers.p ≡ Some j →
            set.contains (neighbours_at self.old.neighbours node) j ≡ true }
        ensures { self.new ≡ with_registers self.old node registers }
    {
        // Called only for its contract, which the proof needs: the network is lawful.
        let _size = self.network.size();
        // A reference is used because the toolchain doesn't copy a value that contains a rank, even if its type is
        // `Copy`.
        let registers = &registers;
        let from = self.network.registers(node).p;
        move_suitor(&mut self.suitors, node, from, registers.p);
        self.free = with_or_without(self.free, node, registers.p.is_none());
        self.believing = with_or_without(self.believing, node, registers.m);
        self.network.set_registers(node, *registers);
    }

    /// Links two different nodes, which must exist. The index stays as it is, since it depends only on registers.
    pub fn link(&mut self, a: Rank, b: Rank)
        requires a { a < length self.old.registers }
        requires b { b < length self.old.registers }
        requires apart { a ≢ b }
        ensures { self.new ≡ with_link self.old a b }
    {
        self.network.link(a, b);
    }

    /// Removes the link between two nodes, if there is one, and sets the pointers along it to null. The nodes must
    /// exist. The pointers are set first, which also updates the index.
    #[tactic(auto, using(crate::proofs::RowsLemmas::cut_again))]
    pub fn cut(&mut self, a: Rank, b: Rank)
        requires a { a < length self.old.registers }
        requires b { b < length self.old.registers }
        ensures { self.new ≡ without_link self.old a b }
    {
        self.unpoint(a, b);
        self.unpoint(b, a);
        self.network.cut(a, b);
    }

    /// Sets the pointer of the node `a`, which must exist, to null if it leads to `b`, and updates the index. Otherwise
    /// changes nothing.
    fn unpoint(&mut self, a: Rank, b: Rank)
        requires { a < length self.old.registers }
        ensures neighbours { self.new.neighbours ≡ self.old.neighbours }
        ensures registers { self.new.registers ≡ unpointed self.old.registers a b }
    {
        let registers = self.network.registers(a);
        if registers.p == Some(b) {
            self.set_registers(
                a,
                Regs {
                    p: None,
                    m: registers.m,
                },
            );
        }
    }
}

/// Moves a node from the suitors of `from`, at which it pointed, to the suitors of `to`, at which it points now. `None`
/// means a null pointer. `suitors` has the nodes that point at each node, by rank, and must have an entry for `from`
/// and `to`.
#[tactic(auto, using(crate::proofs::RowsLemmas::suitor_lengths))]
fn move_suitor(suitors: &mut [NodeSet], node: Rank, from: Option<Rank>, to: Option<Rank>)
    requires from { (i : ℕ) → from ≡ Some i → i < length suitors.old }
    requires to { (i : ℕ) → to ≡ Some i → i < length suitors.old }
    ensures { suitors.new ≡ with_suitor (without_suitor suitors.old from node) to node }
{
    put_suitor(suitors, from, node, false);
    put_suitor(suitors, to, node, true);
}

/// Adds a node to the suitors of the node `p` if `is_in` is true, and otherwise removes it from them. Does nothing if
/// `p` is `None`. `suitors` has the nodes that point at each node, by rank, and must have an entry for `p`.
#[tactic(auto, using(crate::proofs::MonitorLemmas::row_told, std::proofs::lemmas::Bool::Decides::nat_tests, std::proofs::lemmas::List::get_or_default))]
fn put_suitor(suitors: &mut [NodeSet], p: Option<Rank>, node: Rank, is_in: bool)
    requires { (i : ℕ) → p ≡ Some i → i < length suitors.old }
    ensures { suitors.new ≡
        (if is_in then with_suitor suitors.old p node else without_suitor suitors.old p node) }
{
    if let Some(other) = p {
        let index = other.index() as usize;
        suitors[index] = with_or_without(suitors[index], node, is_in);
    }
}
