//! Tests of the ruling on a command if the limit of events is reached, or the journal is halted. An error means that
//! memory ran out.
//!
//! A ruling is what the policy decides about a command. A board is the state of a run after some events. The first
//! board of a lab is the one at the beginning of a run. The path of three is the lab of nodes 1, 2 and 3 in a row;
//! ana owns node 1. A function that owns few large values, such as labs and boards, has a short proof, so some
//! functions only make one and pass it on.
use mml_board::Board;
use mml_fakes::labs::{PATH_OF_THREE, boxed_board, boxed_lab};
use mml_ids::{Memory, Rank};
use mml_lab::{Lab, Who};
use mml_policy::{Asked, Command, Course, Ruling, rule_on};
use mml_rules::Scene;
use std::alloc::Global;
use std::test::Fail;

/// Returns the name of the kind of a ruling.
fn ruling_name(ruling: &Ruling) -> &'static str {
    match ruling {
        Ruling::Denied(_) => "denied",
        Ruling::Seen(_) => "seen",
        Ruling::Looked(_) => "looked",
        Ruling::Reported => "reported",
        Ruling::Full => "full",
        Ruling::Journal => "journal",
        Ruling::Granted { .. } => "granted",
    }
}

/// The limit of events, whether the journal is halted, and a command.
type Case = (u64, bool, Command);

/// Returns the name of the ruling on the command of a case, if the participant `who` asks. Returns `another size` if
/// the board and the lab differ in size. The sizes are compared, since the contract of `rule_on` requires that they are
/// equal.
fn ruled(
    alloc: Global,
    lab: &Lab,
    board: &Board,
    who: Who,
    case: &Case,
) -> Result<&'static str, Memory> {
    let (ids, roster) = (lab.ids(), lab.roster());
    let (limit, is_halted, command) = case;
    if ids.len() != board.size() {
        return Ok("another size");
    }
    let course = Course { board, ids, roster };
    let ruling = rule_on(alloc, &course, *limit, *is_halted, who, command)?;
    Ok(ruling_name(&ruling))
}

/// Returns the names of the rulings on these cases, if ana asks, with a space after each. The name is `nobody` if the
/// lab has no student ana.
fn rulings(alloc: Global, lab: &Lab, board: &Board, cases: &[Case]) -> Result<String, Fail> {
    let mut text = String::new(alloc);
    for case in cases {
        let word = match lab.roster().hello("ana", "a-key") {
            Some(who) => ruled(alloc, lab, board, who, case)?,
            None => "nobody",
        };
        write!(text, "{word} ")?;
    }
    Ok(text)
}

/// Returns the names of the rulings on these cases on the first board of a lab, if ana asks, with a space after each.
fn first_rulings(alloc: Global, lab: &Lab, cases: &[Case]) -> Result<String, Fail> {
    let board = boxed_board(alloc, lab)?;
    rulings(alloc, lab, &board, cases)
}

/// Returns the names of the rulings on these cases on the first board of the path of three, if ana asks, with a space
/// after each.
fn rulings_over_the_path(alloc: Global, cases: &[Case]) -> Result<String, Fail> {
    let lab = boxed_lab(alloc, PATH_OF_THREE)?;
    first_rulings(alloc, &lab, cases)
}

/// Returns the command that asks for a move by Seduction at the node with this identifier, in configuration 0.
fn seduction(node: u64) -> Command {
    Command::Move {
        node,
        rule: Asked::Seduction,
        at: 0,
    }
}

/// Checks the rulings on a legal move. The move is granted, or refused as `journal` if the journal is halted. The move
/// is refused as `full` if the limit is reached, even if the journal is halted too. A halted journal mustn't change the
/// rulings on a denied command, a see or a look.
#[test]
fn a_halted_journal_comes_after_the_limit(rt: HostRuntime) -> Result<(), Fail> {
    let told = rulings_over_the_path(
        rt.alloc(),
        &[
            (1, false, seduction(1)),
            (1, true, seduction(1)),
            (0, true, seduction(1)),
            (0, true, seduction(2)),
            (1, true, Command::See { node: 1 }),
            (1, true, Command::Look { node: 1 }),
            (1, true, Command::Report),
        ],
    )?;
    let wanted = "granted journal full denied seen looked denied ";
    assert_eq!(rt; told.as_str(), wanted);
    Ok(())
}
