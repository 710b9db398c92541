//! What the tally counts of a record's lines.
//!
//! A clause is a condition under which a request is granted; a denial names the first that doesn't hold. A participant
//! is known on a connection from a granted hello to the bye. A student's lines are those that came while the student
//! was known. Most functions are small, because each computes one definition that its contract names.
ghost use Rattle.std.specs.Prelude.{◌≡◌, ◌++◌, [], ◌∷◌, OnOk, IfOk, count_by};
ghost use Rattle.mml_tally.specs.Marks.{is_kind};
ghost use Rattle.mml_tally.specs.Asks.{is_student, asks_by, is_clause, is_malformed, is_move, denials_in, moves_asked, denials_of, moves_asked_by};

use crate::marks::{ByRule, is_kind};
use crate::student_denials::StudentDenial;
use mml_ids::Memory;
use mml_lab::Student;
use mml_policy::Refusal;
use mml_rules::Kind;
use std::alloc::Global;
use std::slice;

/// A line of a client that was answered, as far as the tally counts it.
#[derive(Clone, Copy)]
pub struct Ask {
    /// The student who was known when the line came, if one was.
    pub who: Option<Student>,
    /// What the line asked.
    pub line: Line,
    /// The number of the clause that denied the line, if one did.
    pub denied: Option<u8>,
    /// The denial of the line, if it was denied, and a known student can get this denial.
    pub named: Option<StudentDenial>,
    /// Why the line was refused, if it was. For a line that isn't a request, the value is `None`.
    pub refused: Option<Refusal>,
}

/// What a line asks, as far as the tally distinguishes lines.
#[derive(Clone, Copy, PartialEq, Eq)]
pub enum Line {
    /// A line that isn't a request.
    Malformed,
    /// A request for a move of this rule at the node with this identifier, whether or not there is such a node.
    Move { node: u64, kind: Kind },
    /// Any other request.
    Other,
}

/// How many lines each clause denied, from the first to the fourth, and how many lines weren't requests. A clause is a
/// condition for a request; a denial names the first that doesn't hold.
#[derive(Clone, Copy, PartialEq, Eq)]
pub struct Denials {
    pub first: u64,
    pub second: u64,
    pub third: u64,
    pub fourth: u64,
    pub malformed: u64,
}

/// Appends a copy of a line to `asks`. Returns `Memory` if memory runs out.
pub fn push_ask(asks: &mut Vec<Ask>, ask: &Ask) -> Result<(), Memory>
    ensures { OnOk result (asks.new.items ≡ asks.old.items ++ (ask.now ∷ [])) }
{
    // `push` isn't used, since the toolchain has no proof of it here.
    asks.extend_from_slice(slice::from_ref(ask))?;
    Ok(())
}

/// Returns a student's lines, in order. `asks` has the lines of everybody. Returns `Memory` if memory runs out.
pub(crate) fn asks_by(alloc: Global, asks: &[Ask], student: Student) -> Result<Vec<Ask>, Memory>
    ensures { IfOk result (λ own. own.items ≡ asks_by student asks.now) }
{
    let own = asks
        .iter()
        .copied()
        .filter(|ask| is_student(student, ask.who));
    Ok(own.collect(alloc)?)
}

/// Returns whether a line is one of this student's. `who` is the student who was known when the line came, or `None` if
/// none was.
fn is_student(student: Student, who: Option<Student>) -> bool
    ensures { result ≡ is_student student who }
{
    who == Some(student)
}

/// Returns how many of a student's lines each clause denied, and how many weren't requests. `asks` has the lines of
/// everybody. Returns `Memory` if memory runs out.
pub fn denials_of(alloc: Global, asks: &[Ask], student: Student) -> Result<Denials, Memory>
    ensures { IfOk result (λ denied. denied ≡ denials_of asks.now student) }
{
    let own = asks_by(alloc, asks, student)?;
    Ok(denials_in(&own))
}

/// Returns how many moves of each rule a student asked for at the node with the identifier `node`. `asks` has the lines
/// of everybody. Returns `Memory` if memory runs out.
pub fn moves_asked_by(
    alloc: Global,
    asks: &[Ask],
    node: u64,
    student: Student,
) -> Result<ByRule, Memory>
    ensures { IfOk result (λ asked. asked ≡ moves_asked_by asks.now node student) }
{
    let own = asks_by(alloc, asks, student)?;
    Ok(moves_asked(node, &own))
}

/// Returns how many of a student's lines, `own`, each clause denied, and how many weren't requests.
fn denials_in(own: &[Ask]) -> Denials
    ensures { result ≡ denials_in own.now }
{
    Denials {
        first: count_clause(own, 1),
        second: count_clause(own, 2),
        third: count_clause(own, 3),
        fourth: count_clause(own, 4),
        malformed: count_malformed(own),
    }
}

/// Returns how many of a student's lines, `own`, were denied by the clause with this number.
fn count_clause(own: &[Ask], clause: u8) -> u64
    ensures { result ≡ count_by (λ a. is_clause clause a.denied) own.now }
{
    own.iter()
        .filter(|ask| is_clause(clause, ask.denied))
        .count() as u64
}

/// Returns whether a line was denied by the clause with this number. `denied` is the number of the clause that denied
/// it, or `None` if none did.
fn is_clause(clause: u8, denied: Option<u8>) -> bool
    ensures { result ≡ is_clause clause denied }
{
    denied == Some(clause)
}

/// Returns how many of a student's lines, `own`, weren't requests.
fn count_malformed(own: &[Ask]) -> u64
    ensures { result ≡ count_by (λ a. is_malformed a.line) own.now }
{
    own.iter().filter(|ask| is_malformed(ask.line)).count() as u64
}

/// Returns whether a line wasn't a request.
fn is_malformed(line: Line) -> bool
    ensures { result ≡ is_malformed line }
{
    match line {
        Line::Malformed => true,
        Line::Move { .. } | Line::Other => false,
    }
}

/// Returns how many of a student's lines, `own`, asked for a move of each rule at the node with the identifier `node`.
fn moves_asked(node: u64, own: &[Ask]) -> ByRule
    ensures { result ≡ moves_asked node own.now }
{
    ByRule {
        update: count_moves(node, Kind::Update, own),
        marriage: count_moves(node, Kind::Marriage, own),
        seduction: count_moves(node, Kind::Seduction, own),
        abandonment: count_moves(node, Kind::Abandonment, own),
    }
}

/// Returns how many of a student's lines, `own`, asked for a move of this rule at the node with the identifier `node`.
fn count_moves(node: u64, kind: Kind, own: &[Ask]) -> u64
    ensures { result ≡ count_by (λ a. is_move node kind a.line) own.now }
{
    own.iter()
        .filter(|ask| is_move(node, kind, ask.line))
        .count() as u64
}

/// Returns whether a line asked for a move of this rule at the node with the identifier `node`.
fn is_move(node: u64, kind: Kind, line: Line) -> bool
    ensures { result ≡ is_move node kind line }
{
    match line {
        Line::Move {
            node: other,
            kind: asked,
        } => other == node && is_kind(kind, asked),
        Line::Malformed | Line::Other => false,
    }
}
