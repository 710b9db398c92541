//! The lab: what a run begins from.
//!
//! The rank of a node is its index in the rising order of identifiers. The registers of a node are its pointer p and m,
//! which is true or false. The roster has the teacher, the students, and the owners of each node.
ghost use Rattle.std.specs.Prelude.{◌≡◌, ◌<◌, ◌≤◌, length};
ghost use Rattle.std.specs.FinSet as set;
ghost use Rattle.mml_rules.specs.Network.{neighbours_at, registers_at, configuration_of};
ghost use Rattle.mml_ids.specs.Search.{count_below};
ghost use Rattle.mml_lab.specs.Labs.{IsLab, link_count};

use crate::roster::Roster;
use mml_ids::{IdTable, Rank};
use mml_rules::{Network, Regs};
use std::marker::Model;

/// A lab: the network at the beginning, who takes part, and the limits of a run. Nodes are named by their ranks.
#[derive(Drop)]
pub struct Lab {
    ids: IdTable,
    roster: Roster,
    network: Network,
    events: u64,
    sessions: u8,
}

impl Model for Lab {
    ghost use Rattle.std.specs.Coded.{codes};
    ghost use Rattle.mml_ids.specs.Sets.{node_set_code};
    ghost use Rattle.mml_lab.specs.Labs.{LabValue};

    ghost Value = { LabValue };

    ghost coded = { Prim.hlevel (codes, node_set_code) };

    ghost use Rattle.mml_lab.specs.inside.LabView.{lab_view, IsLabInside};

    ghost view = { lab_view };

    ghost invariant = { IsLabInside };
}

impl Lab {
    /// Returns the lab with these parts; `network` is the network at the beginning. A run may have at most `events`
    /// events, and at most `sessions` connections at once. The roster and the network must have as many nodes as there
    /// are identifiers. `events` must be from 1 to 100000, and `sessions` from 1 to 16.
    pub fn new(ids: IdTable, roster: Roster, network: Network, events: u64, sessions: u8) -> Lab
        requires { IsLab (record {
          ids = ids;
          roster = roster;
          network = network;
          events = events;
          sessions = sessions;
        }) }
        ensures { result ≡ record {
          ids = ids;
          roster = roster;
          network = network;
          events = events;
          sessions = sessions;
        } }
    {
        Lab {
            ids,
            roster,
            network,
            events,
            sessions,
        }
    }

    /// Returns the nodes' identifiers, whose order gives the ranks.
    pub fn ids(&self) -> &IdTable
        ensures { result.now ≡ self.now.ids }
    {
        &self.ids
    }

    /// Returns who takes part, and who owns which node.
    pub fn roster(&self) -> &Roster
        ensures { result.now ≡ self.now.roster }
    {
        &self.roster
    }

    /// Returns whether two nodes are linked at the beginning. The node `a` must exist. Returns `false` if the rank `b`
    /// is past the last node.
    pub fn linked(&self, a: Rank, b: Rank) -> bool
        requires { a < length self.now.ids }
        ensures { result ≡ set.contains (neighbours_at self.now.network.neighbours a) b }
    {
        self.network.neighbours(a).has(b)
    }

    /// Returns the registers that a node, which must exist, has at the beginning.
    pub fn regs(&self, node: Rank) -> Regs
        requires { node < length self.now.ids }
        ensures { result ≡ registers_at self.now.network.registers node }
    {
        self.network.registers(node)
    }

    /// Returns the links and registers at the beginning.
    pub fn network(&self) -> &Network
        ensures { result.now ≡ self.now.network }
    {
        &self.network
    }

    /// Returns the greatest number of events that a run may have.
    pub fn events(&self) -> u64
        ensures { result ≡ self.now.events }
    {
        self.events
    }

    /// Returns the greatest number of connections that there may be at once.
    pub fn sessions(&self) -> u8
        ensures { result ≡ self.now.sessions }
    {
        self.sessions
    }

    /// Returns the number of nodes, which is at least one.
    pub fn node_count(&self) -> u64
        ensures count { result ≡ length self.now.ids }
        ensures lab { IsLab self.now }
    {
        self.ids.len()
    }

    /// Returns the number of links at the beginning.
    pub fn link_count(&self) -> u64
        ensures { result ≡ link_count self.now.network }
    {
        link_count(&self.network)
    }

    /// Returns the number of students, without the teacher.
    pub fn student_count(&self) -> u64
        ensures { result ≡ length self.now.roster.students }
    {
        self.roster.student_count()
    }
}

/// Returns how many links a network has. Counts each link once, at its end of higher rank.
#[tactic(auto, unfolding(crate::specs::Labs::link_count))]
pub fn link_count(network: &Network) -> u64
    ensures { result ≡ link_count network.now }
{
    let mut count = 0;
    for index in 0..network.size() {
        count += neighbours_below(network, Rank::at(index));
    }
    count
}

/// Returns how many neighbours of `node` have a lower rank.
fn neighbours_below(network: &Network, node: Rank) -> u64
    ensures count { result ≡ count_below node ((configuration_of network.now).linked node) }
    ensures few { result ≤ node }
{
    let mut count = 0;
    for index in 0..node.index() {
        if network.neighbours(node).has(Rank::at(index)) {
            count += 1;
        }
    }
    count
}
