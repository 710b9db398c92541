//! The tally of a run, as text.
//!
//! A grant chooses a move for a node, a release drops it, and a close applies all chosen moves at once. A fault sets a
//! node's registers, a link joins two nodes, and a cut removes a link. The place of an event is its number in the list
//! of events, from 1. A node is privileged if some rule is enabled there. A round is a list of events in which each
//! node has its turn: at some point it isn't privileged, or a close applies its move. Some functions get the granted
//! moves as `all`, without the events that grant them. Their contracts hold for any list `es` of events that grants
//! these moves.
ghost use Rattle.std.specs.Prelude.{◌≡◌, ◌<◌, ◌==◌, [], ◌∷◌, ◌++◌, All, List, length, OnOk};
ghost use Rattle.mml_lab.specs.declared.who.Who.TheVariants.{Student as AStudent};
ghost use Rattle.mml_lab.specs.Rosters.{name_of};
ghost use Rattle.mml_board.specs.World.{configuration, privileged_count};
ghost use Rattle.mml_tally.specs.Marks.{moves_at};
ghost use Rattle.mml_tally.specs.Moves.{moves};
ghost use Rattle.mml_tally.specs.Owners.{owners_in_order};
ghost use Rattle.mml_tally.specs.Texts.{numbers_text, place_text, rules_text, marks_text, student_line, owner_text, owners_text, node_line, bounds_line, stable_text, run_line, students_text, nodes_text, ends_text, tally_text};

use crate::bounds::{Bounds, bounds_of};
use crate::granted_move::{Move, moves_of};
use crate::marks::{ByRule, Marks, by_rule, marks_of, moves_at, moves_by};
use crate::owners::{is_shared, owners_of};
use crate::run::{Run, run_of};
use mml_board::{Board, Event};
use mml_ids::{Memory, Piece, Rank, put};
use mml_lab::{Lab, Roster, Student, Who};
use std::alloc::Global;

/// Appends the tally of a run. The tally has a line for each student, and one for each node that several students own.
/// Then come a line with the bounds on what may follow, and a line with the counts of the run. `board` is the state
/// after `events`. Returns `Memory` if memory runs out.
pub fn put_tally(
    out: &mut Vec<u8>,
    alloc: Global,
    lab: &Lab,
    board: &Board,
    events: &[Event],
) -> Result<(), Memory>
    ensures { OnOk result
        (out.new.items ≡ out.old.items ++ tally_text lab.now board.now events.now) }
{
    let all = moves_of(alloc, events)?;
    put_move_counts(out, alloc, lab, &all)?;
    put_ends(out, board, events, &all)
}

/// Appends the first part of the tally: a line for each student with the counts of the student's moves, and a line for
/// each node that several students own, with the counts of each owner's moves there. `all` has the moves that the run's
/// events grant. Returns `Memory` if memory runs out.
pub(crate) fn put_move_counts(
    out: &mut Vec<u8>,
    alloc: Global,
    lab: &Lab,
    all: &[Move],
) -> Result<(), Memory>
    ensures { OnOk result ((es : List Event) → all.now ≡ moves es →
        out.new.items ≡ out.old.items ++ (students_text lab.now es (length lab.now.roster.students)
        ++ nodes_text lab.now es (length lab.now.ids))) }
{
    put_students(out, alloc, lab, all)?;
    put_nodes(out, alloc, lab, all)
}

/// Appends the line `bounds`, with the most moves, rounds and events that may follow, and the line `run`, with the
/// counts of the run. `board` is the state after `events`, and `all` must have the moves that they grant. Returns
/// `Memory` if memory runs out.
pub(crate) fn put_ends(
    out: &mut Vec<u8>,
    board: &Board,
    events: &[Event],
    all: &[Move],
) -> Result<(), Memory>
    requires { all.now ≡ moves events.now }
    ensures { OnOk result (out.new.items ≡ out.old.items ++ ends_text board.now events.now) }
{
    put_bounds(out, &bounds_of(board))?;
    put_run(out, board, &run_of(events, all))
}

/// Appends a line for each student, in the lab's order: the name, and the counts of the student's moves. `all` has the
/// moves that the run's events grant. Returns `Memory` if memory runs out.
fn put_students(out: &mut Vec<u8>, alloc: Global, lab: &Lab, all: &[Move]) -> Result<(), Memory>
    ensures { OnOk result ((es : List Event) → all.now ≡ moves es →
        out.new.items ≡ out.old.items ++ students_text lab.now es (length lab.now.roster.students)) }
{
    let roster = lab.roster();
    for index in 0..roster.student_count() {
        let student = Student::new(index as u16);
        let marks = marks_of(alloc, roster, all, student)?;
        put_student(out, roster.name_of(Who::Student(student)), &marks)?;
    }
    Ok(())
}

/// Appends the line `student` of one student: the student's name, and the counts of the student's moves. Returns
/// `Memory` if memory runs out.
fn put_student(out: &mut Vec<u8>, name: &str, marks: &Marks) -> Result<(), Memory>
    ensures { OnOk result (out.new.items ≡ out.old.items ++ student_line name.now marks.now) }
{
    put(out, &[Piece::Text("student "), Piece::Text(name)])?;
    put_marks(out, marks)?;
    put(out, &[Piece::Text("\n")])
}

/// Appends the counts of a student's moves as numbers, each after a space. First come the granted and the applied moves
/// of each rule, and the number of closes that applied a move. Then come the places of the first and the last grant,
/// and the number of applied moves at nodes that others own too. Returns `Memory` if memory runs out.
fn put_marks(out: &mut Vec<u8>, marks: &Marks) -> Result<(), Memory>
    ensures { OnOk result (out.new.items ≡ out.old.items ++ marks_text marks.now) }
{
    put_rules(out, &marks.granted)?;
    put_rules(out, &marks.applied)?;
    put_numbers(out, &[marks.closes])?;
    put_place(out, marks.first)?;
    put_place(out, marks.last)?;
    put_numbers(out, &[marks.shared])
}

/// Appends the number of moves of each rule, in the order update, marriage, seduction and abandonment, each after a
/// space. Returns `Memory` if memory runs out.
fn put_rules(out: &mut Vec<u8>, counts: &ByRule) -> Result<(), Memory>
    ensures { OnOk result (out.new.items ≡ out.old.items ++ rules_text counts.now) }
{
    let numbers = [
        counts.update,
        counts.marriage,
        counts.seduction,
        counts.abandonment,
    ];
    put_numbers(out, &numbers)
}

/// Appends the place of an event, or `-` if there is none, after a space. Returns `Memory` if memory runs out.
fn put_place(out: &mut Vec<u8>, place: Option<u64>) -> Result<(), Memory>
    ensures { OnOk result (out.new.items ≡ out.old.items ++ place_text place) }
{
    match place {
        Some(place) => put_numbers(out, &[place]),
        None => put(out, &[Piece::Text(" -")]),
    }
}

/// Appends the numbers in decimal, each after a space. Returns `Memory` if memory runs out.
pub(crate) fn put_numbers(out: &mut Vec<u8>, numbers: &[u64]) -> Result<(), Memory>
    ensures { OnOk result (out.new.items ≡ out.old.items ++ numbers_text numbers.now) }
{
    for number in numbers {
        put(out, &[Piece::Text(" "), Piece::Number(*number)])?;
    }
    Ok(())
}

/// Appends a line for each node that several students own, in the order of the identifiers: how many moves of each rule
/// each owner was granted there. `all` has the moves that the run's events grant. Returns `Memory` if memory runs out.
fn put_nodes(out: &mut Vec<u8>, alloc: Global, lab: &Lab, all: &[Move]) -> Result<(), Memory>
    ensures { OnOk result ((es : List Event) → all.now ≡ moves es →
        out.new.items ≡ out.old.items ++ nodes_text lab.now es (length lab.now.ids)) }
{
    for index in 0..lab.node_count() {
        let node = Rank::at(index);
        if is_shared(lab.roster(), node) {
            put_node(out, alloc, lab, all, node)?;
        }
    }
    Ok(())
}

/// Appends the line `node` of one node, which must exist: its identifier, and how many moves of each rule each owner
/// was granted there. `all` has the moves that the run's events grant. Returns `Memory` if memory runs out.
fn put_node(
    out: &mut Vec<u8>,
    alloc: Global,
    lab: &Lab,
    all: &[Move],
    node: Rank,
) -> Result<(), Memory>
    requires { node < length lab.now.ids }
    ensures { OnOk result (out.new.items ≡ out.old.items ++ node_line lab.now all.now node) }
{
    put(out, &[Piece::Text("node")])?;
    put_numbers(out, &[lab.ids().id_of(node)])?;
    put_owners_at(out, alloc, lab, all, node)?;
    put(out, &[Piece::Text("\n")])
}

/// Appends the names of the owners of a node, which must exist, as `put_owners` does. `all` has the moves that the
/// run's events grant. Returns `Memory` if memory runs out.
fn put_owners_at(
    out: &mut Vec<u8>,
    alloc: Global,
    lab: &Lab,
    all: &[Move],
    node: Rank,
) -> Result<(), Memory>
    requires { node < length lab.now.ids }
    ensures { OnOk result (out.new.items ≡ out.old.items
        ++ owners_text lab.now.roster (moves_at node all.now) (owners_in_order lab.now.roster node)) }
{
    let owners = owners_of(alloc, lab.roster(), node)?;
    let there = moves_at(alloc, all, node)?;
    put_owners(out, alloc, lab.roster(), &there, &owners)
}

/// Appends the names of a node's owners, each with how many moves of each rule the owner was granted there. The owners
/// must be in the roster, and `there` has all moves that were granted at the node. Returns `Memory` if memory runs out.
fn put_owners(
    out: &mut Vec<u8>,
    alloc: Global,
    roster: &Roster,
    there: &[Move],
    owners: &[Student],
) -> Result<(), Memory>
    requires { All (λ s. s < length roster.now.students) owners.now }
    ensures { OnOk result
        (out.new.items ≡ out.old.items ++ owners_text roster.now there.now owners.now) }
{
    for owner in owners {
        let owner = *owner;
        let own = moves_by(alloc, there, owner)?;
        put_owner(out, roster.name_of(Who::Student(owner)), &by_rule(&own))?;
    }
    Ok(())
}

/// Appends the name of an owner, after a space, and then the number of moves of each rule in `counts`. Returns `Memory`
/// if memory runs out.
pub(crate) fn put_owner(out: &mut Vec<u8>, name: &str, counts: &ByRule) -> Result<(), Memory>
    ensures { OnOk result (out.new.items ≡ out.old.items ++ owner_text name.now counts.now) }
{
    put(out, &[Piece::Text(" "), Piece::Text(name)])?;
    put_rules(out, counts)
}

/// Appends the line `bounds`: the most moves, rounds and events that may follow. Returns `Memory` if memory runs out.
fn put_bounds(out: &mut Vec<u8>, bounds: &Bounds) -> Result<(), Memory>
    ensures { OnOk result (out.new.items ≡ out.old.items ++ bounds_line bounds.now) }
{
    put(out, &[Piece::Text("bounds")])?;
    put_numbers(out, &[bounds.moves, bounds.rounds, bounds.events])?;
    put(out, &[Piece::Text("\n")])
}

/// Appends the line `run`: the number of events, the number of the configuration, whether it is stable, and the counts
/// of the run. `board` is the state after the run. Returns `Memory` if memory runs out.
fn put_run(out: &mut Vec<u8>, board: &Board, run: &Run) -> Result<(), Memory>
    ensures { OnOk result (out.new.items ≡ out.old.items ++ run_line board.now run.now) }
{
    put(out, &[Piece::Text("run")])?;
    put_numbers(out, &[board.place(), board.number()])?;
    put(out, &[Piece::Text(stable_text(board))])?;
    let numbers = [
        run.closes,
        run.faults,
        run.links,
        run.cuts,
        run.moves,
        run.moves_since,
        run.closes_since,
    ];
    put_numbers(out, &numbers)?;
    put(out, &[Piece::Text("\n")])
}

/// Returns ` stable` if the board has no privileged node, and otherwise ` unstable`.
fn stable_text(board: &Board) -> &'static str
    ensures { result.now ≡ stable_text (privileged_count (configuration board.now) == 0) }
{
    if board.privileged_count() == 0 {
        " stable"
    } else {
        " unstable"
    }
}
