//! The most moves, rounds and events that may still come in a run.
//!
//! A node is privileged if some rule is enabled there. A board is the state of a run after some events. A grant
//! chooses a move for a node, a release drops it, and a close applies all chosen moves at once. A fault sets a node's
//! registers, a link joins two nodes, and a cut removes a link. The registers of a node are its pointer p and m,
//! which is true or false. A node is married if it and another node point at each other.
ghost use Rattle.std.specs.Prelude.{◌≡◌, ◌≤◌};
ghost use Rattle.mml_ids.specs.declared.TheConstants.{MAX_NODES};
ghost use Rattle.mml_convergence.specs.Rounds.{rounds_for};
ghost use Rattle.mml_convergence.specs.Courtships.{most_courtships};
ghost use Rattle.mml_tally.specs.Bounds.{bounds_for, bounds_of};

use mml_board::Board;
use mml_lab::link_count;
use mml_rules::Scene;

/// The most moves, rounds and events of a run in which no fault, link or cut comes. A round is a list of events in
/// which each node has its turn: at some point it isn't privileged, or a close applies its move.
#[derive(Clone, Copy, PartialEq, Eq)]
pub struct Bounds {
    /// The moves that closes apply.
    pub moves: u64,
    /// The rounds until no node is privileged.
    pub rounds: u64,
    /// The grants and closes until no node is privileged, if there is no release.
    pub events: u64,
}

/// Returns the most moves, rounds and events that may still come until no node is privileged, from the state of a board
/// on. Assumes that no fault, link or cut comes. The bound on events also assumes that no release comes.
pub fn bounds_of(board: &Board) -> Bounds
    ensures { result ≡ bounds_of board.now }
{
    bounds_for(board.size(), link_count(board.network()))
}

/// Returns the most moves, rounds and events that may come until no node is privileged, on `nodes` nodes, at most 256,
/// with `links` links. Assumes that no fault, link or cut comes. Without releases, each move takes at most two events,
/// its grant and a close.
fn bounds_for(nodes: u64, links: u64) -> Bounds
    requires { nodes ≤ MAX_NODES }
    ensures { result ≡ bounds_for nodes links }
{
    let courtships = links.min(most_courtships(nodes));
    Bounds {
        moves: 3 * nodes + 2 * courtships,
        rounds: rounds_for(nodes),
        events: 6 * nodes + 4 * courtships,
    }
}

/// Returns the most courtships that `nodes` unmarried nodes, at most 256, may have: n²/4 for n nodes, rounded down. A
/// courtship is a pointer of an unmarried node at a higher unmarried node whose m is false.
fn most_courtships(nodes: u64) -> u64
    requires { nodes ≤ MAX_NODES }
    ensures exact { result ≡ most_courtships nodes }
    ensures few { result ≤ 16384 }
{
    let half = nodes / 2;
    half * (nodes - half)
}

/// Returns the most rounds that a run on `nodes` nodes, at most 256, needs until no node is privileged: 2n for n nodes,
/// or 2n - 1 if n is odd.
fn rounds_for(nodes: u64) -> u64
    requires { nodes ≤ MAX_NODES }
    ensures { result ≡ rounds_for nodes }
{
    2 * nodes - nodes % 2
}
