//! What a look shows.
//!
//! The registers of a node are its pointer p and m, which is true or false. A chosen move is a rule that was granted
//! for the node, and is to be applied by the next close. A configuration is lawful if each link joins two different
//! nodes in both directions, and pointers lead only to neighbours.
ghost use Rattle.std.specs.Prelude.{◌≡◌, ◌<◌, length, IfOk};
ghost use Rattle.mml_policy.specs.Shown.{look_of, near};

use mml_board::Board;
use mml_ids::{Items, Memory, Rank};
use mml_rules::{Kind, Regs, Scene, kind_of};
use std::alloc::Global;

/// A node as shown to its owners and the teacher.
#[derive(Drop)]
pub struct Look {
    /// The number of the configuration that is shown.
    pub at: u64,
    pub node: Rank,
    pub regs: Regs,
    /// The rule of the node's chosen move, or `None` if no move is chosen.
    pub chosen: Option<Kind>,
    /// The rule that is enabled at the node, or `None` if none is.
    pub enabled: Option<Kind>,
    /// The nodes linked to the node, in rising order, with their registers.
    pub near: Items<(Rank, Regs)>,
}

/// Returns what a look shows of a node, which must exist: its registers, its chosen move, the rule that is enabled
/// there, and its neighbours with their registers. Returns `Memory` if memory runs out.
pub fn look_of(alloc: Global, board: &Board, node: Rank) -> Result<Look, Memory>
    requires { node < length board.now.network.registers }
    ensures { IfOk result (λ look. look ≡ look_of board.now node) }
{
    Ok(Look {
        at: board.number(),
        node,
        regs: board.regs(node),
        chosen: board.chosen(node).map(|rule| kind_of(rule)),
        enabled: board.enabled(node),
        near: Items::of(near(alloc, board, node)?),
    })
}

/// Returns the neighbours of a node, which must exist, in rising order and each with its registers. Returns `Memory` if
/// memory runs out.
fn near(alloc: Global, board: &Board, node: Rank) -> Result<Vec<(Rank, Regs)>, Memory>
    requires { node < length board.now.network.registers }
    ensures { IfOk result (λ nodes. nodes.items ≡ near board.now node) }
{
    // Called only for its contract, which the proof needs: there are at most `MAX_NODES` nodes, and the configuration
    // is lawful.
    let _size = board.size();
    let mut left = board.neighbours(node);
    let mut near = Vec::with_capacity(alloc, left.len() as usize)?;
    while let Some(other) = left.take_least() {
        near.push_reserved((other, board.regs(other)));
    }
    Ok(near)
}
