//! The tally of a run with a record.
//!
//! A record has the lines of sessions with their replies. Recording pauses when a budget is used up. A clause is a
//! condition under which a request is granted; a denial names the first that doesn't hold. A student's lines are those
//! that came while the student was known on a connection, from a granted hello to the bye.
ghost use Rattle.std.specs.Prelude.{◌≡◌, ◌<◌, ◌++◌, All, length, OnOk};
ghost use Rattle.mml_tally.specs.RecordTexts.{denied_line, denied_text, askers_text, asked_line, asked_text, whole_text, record_line, record_text, recorded_run_text, recorded_text, turned_down_text};

use crate::ask::{Ask, Denials, denials_of, moves_asked_by};
use crate::granted_move::moves_of;
use crate::lacking::put_recorded;
use crate::owners::{is_shared, owners_of};
use crate::refusals::put_refused;
use crate::student_denials::put_named;
use crate::text::{put_ends, put_move_counts, put_numbers, put_owner};
use mml_board::{Board, Event};
use mml_ids::{Memory, NodeSet, Piece, Rank, put};
use mml_lab::{Lab, Roster, Student, Who};
use std::alloc::Global;

/// The summary of a record, without its single lines.
#[derive(Clone, Copy, Drop)]
pub struct Findings {
    /// The number of sessions that ended.
    pub sessions: u64,
    /// The number of lines that were answered.
    pub lines: u64,
    /// Whether no entry says that something was left out.
    pub whole: bool,
    /// Whether an entry says that lines of anybody may be missing.
    pub is_cut: bool,
    /// Whether recording paused while the teacher was known, so that lines of the teacher's may be missing.
    pub lacks_teacher: bool,
    /// The students during whose sessions recording paused, so that lines of theirs may be missing. A rank of the set
    /// is the index of a student.
    pub lacking: NodeSet,
}

/// Appends the tally of a run of which there is a record. First come the lines of students and nodes, the lines about
/// the record, and the lines `bounds` and `run`. Then come the line with the participants whose lines are all recorded,
/// and lines with each student's refusals and denials. `board` is the state after `events`, and `asks` has the lines of
/// the record. Returns `Memory` if memory runs out.
pub fn put_recorded_tally(
    out: &mut Vec<u8>,
    alloc: Global,
    lab: &Lab,
    board: &Board,
    events: &[Event],
    findings: &Findings,
    asks: &[Ask],
) -> Result<(), Memory>
    ensures { OnOk result (out.new.items
        ≡ out.old.items ++ recorded_text lab.now board.now events.now findings.now asks.now) }
{
    put_recorded_run(out, alloc, lab, board, events, findings, asks)?;
    put_recorded(out, lab, findings)?;
    put_turned_down(out, alloc, lab, asks)
}

/// Appends a line for each student with how many of the student's lines were refused for each reason. Then appends a
/// line for each student with how many got each denial. `asks` has the lines of the record. Returns `Memory` if memory
/// runs out.
fn put_turned_down(out: &mut Vec<u8>, alloc: Global, lab: &Lab, asks: &[Ask]) -> Result<(), Memory>
    ensures { OnOk result (out.new.items ≡ out.old.items ++ turned_down_text lab.now asks.now) }
{
    put_refused(out, alloc, lab, asks)?;
    put_named(out, alloc, lab, asks)
}

/// Appends the lines of students and nodes, the lines about the record, and the lines `bounds` and `run`. `board` is
/// the state after `events`, and `asks` has the lines of the record. Returns `Memory` if memory runs out.
fn put_recorded_run(
    out: &mut Vec<u8>,
    alloc: Global,
    lab: &Lab,
    board: &Board,
    events: &[Event],
    findings: &Findings,
    asks: &[Ask],
) -> Result<(), Memory>
    ensures { OnOk result (out.new.items ≡ out.old.items
        ++ recorded_run_text lab.now board.now events.now findings.now asks.now) }
{
    let all = moves_of(alloc, events)?;
    put_move_counts(out, alloc, lab, &all)?;
    put_record(out, alloc, lab, findings, asks)?;
    put_ends(out, board, events, &all)
}

/// Appends the tally's lines about a record: each student's denials by clause, the moves that were asked for at nodes
/// that several students own, and the summary. `asks` has the lines of the record. Returns `Memory` if memory runs out.
fn put_record(
    out: &mut Vec<u8>,
    alloc: Global,
    lab: &Lab,
    findings: &Findings,
    asks: &[Ask],
) -> Result<(), Memory>
    ensures { OnOk result
        (out.new.items ≡ out.old.items ++ record_text lab.now findings.now asks.now) }
{
    put_denied(out, alloc, lab, asks)?;
    put_asked(out, alloc, lab, asks)?;
    put_findings(out, findings)
}

/// Appends a line for each student, in the lab's order: how many of the student's lines each clause denied, and how
/// many weren't requests. `asks` has the lines of the record. Returns `Memory` if memory runs out.
#[tactic(auto, using(crate::proofs::TextsLemmas::one_line_more))]
fn put_denied(out: &mut Vec<u8>, alloc: Global, lab: &Lab, asks: &[Ask]) -> Result<(), Memory>
    ensures { OnOk result (out.new.items
        ≡ out.old.items ++ denied_text lab.now asks.now (length lab.now.roster.students)) }
{
    let roster = lab.roster();
    for index in 0..roster.student_count() {
        let student = Student::new(index as u16);
        let denied = denials_of(alloc, asks, student)?;
        put_denials(out, roster.name_of(Who::Student(student)), &denied)?;
    }
    Ok(())
}

/// Appends the line `denied` of the student with the name `name`: how many lines each clause denied, and how many
/// weren't requests. Returns `Memory` if memory runs out.
fn put_denials(out: &mut Vec<u8>, name: &str, denied: &Denials) -> Result<(), Memory>
    ensures { OnOk result (out.new.items ≡ out.old.items ++ denied_line name.now denied.now) }
{
    put(out, &[Piece::Text("denied "), Piece::Text(name)])?;
    let numbers = [
        denied.first,
        denied.second,
        denied.third,
        denied.fourth,
        denied.malformed,
    ];
    put_numbers(out, &numbers)?;
    put(out, &[Piece::Text("\n")])
}

/// Appends a line for each node that several students own, in the order of the identifiers: how many moves of each rule
/// each owner asked for there. `asks` has the lines of the record. Returns `Memory` if memory runs out.
fn put_asked(out: &mut Vec<u8>, alloc: Global, lab: &Lab, asks: &[Ask]) -> Result<(), Memory>
    ensures { OnOk result (out.new.items
        ≡ out.old.items ++ asked_text lab.now asks.now (length lab.now.ids)) }
{
    for index in 0..lab.node_count() {
        let node = Rank::at(index);
        if is_shared(lab.roster(), node) {
            put_asked_at(out, alloc, lab, asks, node)?;
        }
    }
    Ok(())
}

/// Appends the line `asked` of one node, which must exist: its identifier, and how many moves of each rule each owner
/// asked for there. `asks` has the lines of the record. Returns `Memory` if memory runs out.
fn put_asked_at(
    out: &mut Vec<u8>,
    alloc: Global,
    lab: &Lab,
    asks: &[Ask],
    node: Rank,
) -> Result<(), Memory>
    requires { node < length lab.now.ids }
    ensures { OnOk result (out.new.items ≡ out.old.items ++ asked_line lab.now asks.now node) }
{
    let owners = owners_of(alloc, lab.roster(), node)?;
    let id = lab.ids().id_of(node);
    put(out, &[Piece::Text("asked")])?;
    put_numbers(out, &[id])?;
    put_askers(out, alloc, lab.roster(), asks, id, &owners)?;
    put(out, &[Piece::Text("\n")])
}

/// Appends the names of a node's owners, each with how many moves of each rule the owner asked for there. The owners
/// must be in the roster. `id` is the node's identifier, and `asks` has the lines of everybody. Returns `Memory` if
/// memory runs out.
fn put_askers(
    out: &mut Vec<u8>,
    alloc: Global,
    roster: &Roster,
    asks: &[Ask],
    id: u64,
    owners: &[Student],
) -> Result<(), Memory>
    requires { All (λ s. s < length roster.now.students) owners.now }
    ensures { OnOk result
        (out.new.items ≡ out.old.items ++ askers_text roster.now asks.now id owners.now) }
{
    for owner in owners {
        let owner = *owner;
        let asked = moves_asked_by(alloc, asks, id, owner)?;
        put_owner(out, roster.name_of(Who::Student(owner)), &asked)?;
    }
    Ok(())
}

/// Appends the line `record`, the summary of a record: how many sessions ended, how many lines were answered, and
/// whether nothing was left out. Returns `Memory` if memory runs out.
fn put_findings(out: &mut Vec<u8>, findings: &Findings) -> Result<(), Memory>
    ensures { OnOk result (out.new.items ≡ out.old.items ++ record_line findings.now) }
{
    put(out, &[Piece::Text("record")])?;
    put_numbers(out, &[findings.sessions, findings.lines])?;
    put(out, &[Piece::Text(whole_text(findings.whole))])
}

/// Returns the end of the line `record`: ` whole` if `is_whole`, that is, if nothing was left out of the record, and
/// otherwise ` cut`. Both end with a newline.
fn whole_text(is_whole: bool) -> &'static str
    ensures { result.now ≡ whole_text is_whole }
{
    if is_whole { " whole\n" } else { " cut\n" }
}
