//! The views of a board.
//!
//! A view is what a see, a look or a report shows. The board has the registers and the chosen moves after the events so
//! far. A rank is the index of a node in the lab's list of identifiers.
ghost use Rattle.std.specs.Prelude.{◌≡◌, ◌≢◌, length, IfOk, IfErr};
ghost use Rattle.mml_policy.specs.declared.command.Command.TheVariants as command;
ghost use Rattle.mml_policy.specs.declared.ruling.Ruling.TheVariants as rulings;
ghost use Rattle.mml_stable.specs.Reports.{report_of};
ghost use Rattle.mml_window.specs.declared.sight.SightFault.TheVariants as faults;
ghost use Rattle.mml_window.specs.Rulings.{ruling_at};
ghost use Rattle.mml_window.specs.Views.{Shows};

use crate::sight::SightFault;
use mml_board::Board;
use mml_lab::{Lab, Who};
use mml_policy::{Course, Look, See, look_of, may_look, may_report, may_see, see_of};
use mml_stable::{Report, report};
use std::alloc::Global;

/// Returns the data by which a command is judged: the board, and the lab's identifiers and roster.
fn course_in<'a>(board: &'a Board, lab: &'a Lab) -> Course<'a>
    ensures board { result.board.now ≡ board.now }
    ensures ids { result.ids.now ≡ lab.now.ids }
    ensures roster { result.roster.now ≡ lab.now.roster }
{
    Course {
        board,
        ids: lab.ids(),
        roster: lab.roster(),
    }
}

/// Returns the registers of the node with the identifier `node`, if `who` may see it, and else `Denied` with the
/// reason. `board` must be a board of this lab. Allocates nothing.
pub(crate) fn see_at(board: &Board, lab: &Lab, who: Who, node: u64) -> Result<See, SightFault>
    requires { length lab.now.ids ≡ length board.now.network.registers }
    ensures shows { Shows rulings.Seen (ruling_at lab.now board.now who (command.See node)) result }
    ensures memory { IfErr result (λ fault. fault ≢ faults.Memory) }
{
    let course = course_in(board, lab);
    match may_see(&course, who, node) {
        Ok(rank) => Ok(see_of(board, rank)),
        Err(denial) => Err(SightFault::Denied(denial)),
    }
}

/// Returns the node with the identifier `node` as its owners see it, if `who` owns it or is the teacher, and else
/// `Denied` with the reason. `board` must be a board of this lab. Returns `Memory` if memory runs out.
pub(crate) fn look_at(
    alloc: Global,
    board: &Board,
    lab: &Lab,
    who: Who,
    node: u64,
) -> Result<Look, SightFault>
    requires { length lab.now.ids ≡ length board.now.network.registers }
    ensures { Shows rulings.Looked (ruling_at lab.now board.now who (command.Look node)) result }
{
    let course = course_in(board, lab);
    match may_look(&course, who, node) {
        Ok(rank) => match look_of(alloc, board, rank) {
            Ok(look) => Ok(look),
            Err(_) => Err(SightFault::Memory),
        },
        Err(denial) => Err(SightFault::Denied(denial)),
    }
}

/// Returns the report on the board's configuration, if `who` is the teacher, and else `Denied` with the reason. `board`
/// must be a board of this lab. Returns `Memory` if memory runs out.
pub(crate) fn report_at(
    alloc: Global,
    board: &Board,
    lab: &Lab,
    who: Who,
) -> Result<Report, SightFault>
    requires { length lab.now.ids ≡ length board.now.network.registers }
    ensures ruled { Shows (λ r. rulings.Reported) (ruling_at lab.now board.now who command.Report)
        result }
    ensures report { IfOk result (λ r. r ≡ report_of board.now) }
{
    let course = course_in(board, lab);
    match may_report(&course, who) {
        Ok(()) => match report(alloc, board) {
            Ok(report) => Ok(report),
            Err(_) => Err(SightFault::Memory),
        },
        Err(denial) => Err(SightFault::Denied(denial)),
    }
}
