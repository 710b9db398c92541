//! The nodes that several students own.
//!
//! A student who owns a node may ask for moves there.
ghost use Rattle.std.specs.Prelude.{◌≡◌, ◌<◌, length, All, IfOk};
ghost use Rattle.mml_lab.specs.declared.who.Who.TheVariants.{Student as AStudent};
ghost use Rattle.mml_lab.specs.Rosters.{owns};
ghost use Rattle.mml_tally.specs.Owners.{owners_in_order, is_shared};

use mml_ids::{Memory, Rank};
use mml_lab::{Roster, Student, Who};
use std::alloc::Global;

/// Returns the students who own a node, in the lab's order. Returns `Memory` if memory runs out.
pub fn owners_of(alloc: Global, roster: &Roster, node: Rank) -> Result<Vec<Student>, Memory>
    ensures exact { IfOk result (λ owners. owners.items ≡ owners_in_order roster.now node) }
    ensures members { IfOk result
        (λ owners. All (λ s. s < length roster.now.students) owners.items) }
{
    let mut owners = Vec::new(alloc);
    for index in 0..roster.student_count() {
        let student = Student::new(index as u16);
        if roster.owns(Who::Student(student), node) {
            owners.push(student)?;
        }
    }
    Ok(owners)
}

/// Returns whether more than one student owns a node.
pub fn is_shared(roster: &Roster, node: Rank) -> bool
    ensures { result ≡ is_shared roster.now node }
{
    let mut owners = 0u64;
    for index in 0..roster.student_count() {
        let student = Student::new(index as u16);
        if roster.owns(Who::Student(student), node) {
            owners += 1;
        }
    }
    owners > 1
}
