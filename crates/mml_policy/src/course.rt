//! The data by which a command is judged.
//!
//! A world is a network with its registers, its chosen moves, the number of its configuration, and the number of events
//! so far. The roster has the teacher, the students, and the owners of each node.
use mml_board::Board;
use mml_ids::IdTable;
use mml_lab::Roster;

/// The data by which a command is judged: a lab, and the current state of its run. The board must have as many nodes as
/// there are identifiers.
#[derive(Clone, Copy)]
pub struct Course<'a> {
    /// The current world of the run.
    pub board: &'a Board,
    /// The identifiers of the lab's nodes.
    pub ids: &'a IdTable,
    /// The lab's roster: who takes part, and who owns which node.
    pub roster: &'a Roster,
}
