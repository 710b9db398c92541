//! How many of a student's lines got each denial, and the lines of the tally with these counts.
//!
//! A denial names the first clause, a condition for a request, that doesn't hold. A student's lines are those that came
//! while the student was known on a connection, from a granted hello to the bye. Most functions are small, because each
//! computes one definition that its contract names.
ghost use Rattle.std.specs.Prelude.{◌≡◌, ◌++◌, count_by, length, IfOk, OnOk};
ghost use Rattle.mml_tally.specs.StudentDenials.{is_named, named_in, named_of, denials_line, denials_text};

use crate::ask::{Ask, asks_by};
use crate::text::put_numbers;
use mml_ids::{Memory, Piece, put};
use mml_lab::{Lab, Student, Who};
use std::alloc::Global;

/// A denial that a student can get after a granted hello. Each has its own name in the reply.
#[derive(Clone, Copy, PartialEq, Eq)]
pub enum StudentDenial {
    /// The connection has a name already.
    Greeted,
    /// There is no such node, or it isn't visible to the asker.
    Hidden,
    /// There is no such node, or the asker doesn't own it.
    NotOwner,
    /// The asker isn't the teacher.
    NotTeacher,
    /// The move was asked for in another configuration than the current one.
    Stale,
    /// A move is already chosen for the node.
    Chosen,
    /// The rule may not be applied at the node.
    Guard,
}

/// How many lines got each of these denials.
#[derive(Clone, Copy, PartialEq, Eq)]
pub struct NamedDenials {
    pub greeted: u64,
    pub hidden: u64,
    pub not_owner: u64,
    pub not_teacher: u64,
    pub stale: u64,
    pub chosen: u64,
    pub guard: u64,
}

/// Returns how many of a student's lines got each denial. `asks` has the lines of everybody. Returns `Memory` if memory
/// runs out.
pub fn named_of(alloc: Global, asks: &[Ask], student: Student) -> Result<NamedDenials, Memory>
    ensures { IfOk result (λ denied. denied ≡ named_of asks.now student) }
{
    let own = asks_by(alloc, asks, student)?;
    Ok(named_in(&own))
}

/// Returns how many of a student's lines, `own`, got each denial.
fn named_in(own: &[Ask]) -> NamedDenials
    ensures { result ≡ named_in own.now }
{
    NamedDenials {
        greeted: count_named(own, StudentDenial::Greeted),
        hidden: count_named(own, StudentDenial::Hidden),
        not_owner: count_named(own, StudentDenial::NotOwner),
        not_teacher: count_named(own, StudentDenial::NotTeacher),
        stale: count_named(own, StudentDenial::Stale),
        chosen: count_named(own, StudentDenial::Chosen),
        guard: count_named(own, StudentDenial::Guard),
    }
}

/// Returns how many of a student's lines, `own`, got this denial.
fn count_named(own: &[Ask], denial: StudentDenial) -> u64
    ensures { result ≡ count_by (λ a. is_named denial a.named) own.now }
{
    own.iter().filter(|ask| is_named(denial, ask.named)).count() as u64
}

/// Returns whether a line got this denial. `named` is the denial that it got, or `None` if it got none of these.
fn is_named(denial: StudentDenial, named: Option<StudentDenial>) -> bool
    ensures { result ≡ is_named denial named }
{
    match named {
        Some(other) => other == denial,
        None => false,
    }
}

/// Appends a line for each student, in the lab's order: how many of the student's lines got each denial. `asks` has the
/// lines of everybody. Returns `Memory` if memory runs out.
pub(crate) fn put_named(
    out: &mut Vec<u8>,
    alloc: Global,
    lab: &Lab,
    asks: &[Ask],
) -> Result<(), Memory>
    ensures { OnOk result (out.new.items
        ≡ out.old.items ++ denials_text lab.now asks.now (length lab.now.roster.students)) }
{
    let roster = lab.roster();
    for index in 0..roster.student_count() {
        let student = Student::new(index as u16);
        let denied = named_of(alloc, asks, student)?;
        put_named_of(out, roster.name_of(Who::Student(student)), &denied)?;
    }
    Ok(())
}

/// Appends the line `denials` of the student with the name `name`: how many lines got each denial. Returns `Memory` if
/// memory runs out.
fn put_named_of(out: &mut Vec<u8>, name: &str, denied: &NamedDenials) -> Result<(), Memory>
    ensures { OnOk result (out.new.items ≡ out.old.items ++ denials_line name.now denied.now) }
{
    put(out, &[Piece::Text("denials "), Piece::Text(name)])?;
    let numbers = [
        denied.greeted,
        denied.hidden,
        denied.not_owner,
        denied.not_teacher,
        denied.stale,
        denied.chosen,
        denied.guard,
    ];
    put_numbers(out, &numbers)?;
    put(out, &[Piece::Text("\n")])
}
