//! The moves that a run grants.
//!
//! A grant chooses a move for a node, a release drops it, and a close applies all chosen moves at once. A fault sets a
//! node's registers, a link joins two nodes, and a cut removes a link. The place of an event is its number in the list
//! of events, from 1.
ghost use Rattle.std.specs.Prelude.{◌≡◌, ◌+◌, ◌<◌, ◌^◌, length, IfOk};
ghost use Rattle.mml_tally.specs.Moves.{moves};

use crate::fate::{Fate, fate_of};
use mml_board::Event;
use mml_ids::{Memory, Rank};
use mml_lab::Student;
use mml_rules::{Kind, kind_of};
use std::alloc::Global;

/// A move that was granted, and what happened to it.
#[derive(Clone, Copy)]
pub struct Move {
    /// The place of the move's grant.
    pub place: u64,
    /// The student who asked for the move.
    pub who: Student,
    /// The node for which the move was granted.
    pub node: Rank,
    /// The kind of the move's rule.
    pub kind: Kind,
    /// What happened to the move.
    pub fate: Fate,
}

/// Returns the moves that a run's events grant, in order, each with what happened to it. Returns `Memory` if memory
/// runs out.
pub fn moves_of(alloc: Global, events: &[Event]) -> Result<Vec<Move>, Memory>
    ensures { IfOk result (λ all. all.items ≡ moves events.now) }
{
    let mut all = Vec::new(alloc);
    for (index, event) in events.iter().enumerate() {
        if let Event::Grant { who, node, rule } = *event {
            let (_, later) = events.split_at(index + 1);
            let place = index as u64 + 1;
            all.push(Move {
                place,
                who,
                node,
                kind: kind_of(rule),
                fate: fate_of(node, place + 1, later),
            })?;
        }
    }
    Ok(all)
}
