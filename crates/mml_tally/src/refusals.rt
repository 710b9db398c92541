//! The requests that were refused, by reason, and their lines in the tally.
//!
//! A refusal is a reply that says why a request was neither granted nor denied, for example `full` or `memory`. A
//! student's lines are those that came while the student was known on a connection, from a granted hello to the bye.
//! Most functions are small, because each computes one definition that its contract names.
ghost use Rattle.std.specs.Prelude.{◌≡◌, ◌++◌, count_by, length, IfOk, OnOk};
ghost use Rattle.mml_tally.specs.Refusals.{is_refused, refusals_in, refusals_of, refused_line, refused_text};

use crate::ask::{Ask, asks_by};
use crate::text::put_numbers;
use mml_ids::{Memory, Piece, put};
use mml_lab::{Lab, Student, Who};
use mml_policy::Refusal;
use std::alloc::Global;

/// How many lines were refused for each reason.
#[derive(Clone, Copy, PartialEq, Eq)]
pub struct Refusals {
    pub journal: u64,
    pub memory: u64,
    pub full: u64,
}

/// Returns how many of a student's lines were refused for each reason. `asks` has the lines of everybody. Returns
/// `Memory` if memory runs out.
pub fn refusals_of(alloc: Global, asks: &[Ask], student: Student) -> Result<Refusals, Memory>
    ensures { IfOk result (λ refused. refused ≡ refusals_of asks.now student) }
{
    let own = asks_by(alloc, asks, student)?;
    Ok(refusals_in(&own))
}

/// Returns how many of a student's lines, `own`, were refused for each reason.
fn refusals_in(own: &[Ask]) -> Refusals
    ensures { result ≡ refusals_in own.now }
{
    Refusals {
        journal: count_refused(own, Refusal::Journal),
        memory: count_refused(own, Refusal::Memory),
        full: count_refused(own, Refusal::Full),
    }
}

/// Returns how many of a student's lines, `own`, were refused for this reason.
fn count_refused(own: &[Ask], reason: Refusal) -> u64
    ensures { result ≡ count_by (λ a. is_refused reason a.refused) own.now }
{
    own.iter()
        .filter(|ask| is_refused(reason, ask.refused))
        .count() as u64
}

/// Returns whether a line was refused for this reason. `refused` is the reason why it was refused, or `None` if it
/// wasn't.
fn is_refused(reason: Refusal, refused: Option<Refusal>) -> bool
    ensures { result ≡ is_refused reason refused }
{
    match refused {
        Some(other) => other == reason,
        None => false,
    }
}

/// Appends a line for each student, in the lab's order: how many of the student's lines were refused for each reason.
/// `asks` has the lines of everybody. Returns `Memory` if memory runs out.
#[tactic(auto, using(crate::proofs::TextsLemmas::one_line_more))]
pub(crate) fn put_refused(
    out: &mut Vec<u8>,
    alloc: Global,
    lab: &Lab,
    asks: &[Ask],
) -> Result<(), Memory>
    ensures { OnOk result (out.new.items
        ≡ out.old.items ++ refused_text lab.now asks.now (length lab.now.roster.students)) }
{
    let roster = lab.roster();
    for index in 0..roster.student_count() {
        let student = Student::new(index as u16);
        let refused = refusals_of(alloc, asks, student)?;
        put_refusals(out, roster.name_of(Who::Student(student)), &refused)?;
    }
    Ok(())
}

/// Appends the line `refused` of the student with the name `name`: how many lines were refused for each reason. Returns
/// `Memory` if memory runs out.
fn put_refusals(out: &mut Vec<u8>, name: &str, refused: &Refusals) -> Result<(), Memory>
    ensures { OnOk result (out.new.items ≡ out.old.items ++ refused_line name.now refused.now) }
{
    put(out, &[Piece::Text("refused "), Piece::Text(name)])?;
    put_numbers(out, &[refused.journal, refused.memory, refused.full])?;
    put(out, &[Piece::Text("\n")])
}
