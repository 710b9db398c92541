//! The ten acts (commands that ask for events) of a stored run over the path of three, nodes 1, 2 and 3 in a row.
//!
//! The place of an event is its number in the list of events, from 1.
ghost use Rattle.std.specs.Prelude.{◌≡◌, true};
ghost use Rattle.mml_policy.specs.Acts.{is_act};

use crate::acts::student;
use mml_lab::Who;
use mml_policy::{Asked, Command};

/// How many acts there are.
pub const ACTS: u64 = 10;

/// Returns the command that asks for a move by this rule at the node with this identifier, in configuration `at`.
fn move_by(node: u64, rule: Asked, at: u64) -> Command
    ensures { is_act result ≡ true }
{
    Command::Move { node, rule, at }
}

/// Returns the act of the stored run that is granted at this place, counted from 1. The journal of all ten acts is
/// `scripts::TEN_LINES`. Returns a close if `place` isn't from 1 to 10.
pub fn act(place: u64) -> Command
    ensures { is_act result ≡ true }
{
    match place {
        1 => move_by(1, Asked::Seduction, 0),
        2 => move_by(2, Asked::Seduction, 0),
        4 => move_by(3, Asked::Marriage(2), 1),
        6 => move_by(2, Asked::Update, 2),
        7 => move_by(3, Asked::Update, 2),
        9 => move_by(1, Asked::Abandonment, 3),
        _ => Command::Close,
    }
}

/// Returns the participant who asks for the act that is granted at this place, counted from 1. Returns the teacher if
/// `place` isn't from 1 to 10.
pub fn asker(place: u64) -> Who {
    match place {
        1 | 9 => student(0),
        2 | 6 => student(1),
        4 | 7 => student(2),
        _ => Who::Teacher,
    }
}

/// Returns the number of the configuration before the event at this place, counted from 1. For a place after the tenth
/// event this is 4, the number of the last configuration.
pub fn number_before(place: u64) -> u64 {
    match place {
        0..=3 => 0,
        4 | 5 => 1,
        6..=8 => 2,
        9 | 10 => 3,
        _ => 4,
    }
}
