//! Participants, commands and answers over the path of three: nodes 1, 2 and 3 in a row (`labs::PATH_OF_THREE`).
//!
//! A move by a rule, such as Seduction, is chosen when it is granted. A close is an event that applies all chosen
//! moves, and makes the next configuration.
ghost use Rattle.std.specs.Prelude.{◌≡◌, true};
ghost use Rattle.mml_policy.specs.Acts.{is_act};

use mml_board::Done;
use mml_ids::Rank;
use mml_lab::{Student, Who};
use mml_policy::{Asked, Command};
use mml_window::Answer;

/// Returns the student with this index as a participant. Students are counted from 0 in the order of the lab file.
pub fn student(index: u16) -> Who {
    Who::Student(Student::new(index))
}

/// Returns the command that asks for a move by Seduction at the node with this identifier, in configuration `at`.
pub fn seduction(node: u64, at: u64) -> Command
    ensures { is_act result ≡ true }
{
    Command::Move {
        node,
        rule: Asked::Seduction,
        at,
    }
}

/// Returns whether an answer grants a close as the second event, which leads to configuration 1. The close must apply
/// exactly one move, that of the first node (rank 0, which is node 1 in the path of three).
pub fn is_first_close(answer: &Answer) -> bool {
    match answer {
        Answer::Granted {
            place: 2,
            number: 1,
            done: Done::Close { moved },
        } => moved.len() == 1 && moved.has(Rank::at(0)),
        _ => false,
    }
}
