//! The set of the nodes that each student owns.
//!
//! The rank of a node is its index in the rising order of identifiers.
ghost use Rattle.std.specs.Prelude.{◌≡◌, ℕ, ◌<◌, ◌≤◌, ◌==◌, ◌&&◌, ◌||◌, All, length, map, IfOk, IfErr};
ghost use Rattle.std.specs.List.{list_any};
ghost use Rattle.std.specs.FinSet as set;
ghost use Rattle.mml_ids.specs.declared.TheConstants.{MAX_NODES};
ghost use Rattle.mml_lab.specs.declared.TheConstants.{MAX_STUDENTS};
ghost use Rattle.mml_lab.specs.declared.lab_fault.LabFault.TheVariants.{Memory};
ghost use Rattle.mml_lab.specs.inside.Owned.{AreOwned, row_at};

use crate::lab_fault::LabFault;
use crate::who::Student;
use mml_ids::{NodeSet, Rank};
use std::alloc::Global;

/// Returns, for each student, the set of the nodes that the student owns. The last set of the list is empty, and is for
/// anyone who isn't in the roster. `students` is the number of students, at most 256. `owners` has the owners of each
/// node, by rank, for at most 256 nodes; each owner must be one of the students. Returns `Memory` if memory runs out.
pub(crate) fn owned_by_each(
    alloc: Global,
    students: usize,
    owners: &[Vec<Student>],
) -> Result<Vec<NodeSet>, LabFault>
    requires students { students ≤ MAX_STUDENTS }
    requires nodes { length owners.now ≤ MAX_NODES }
    requires known { All (All (λ s. s < students)) (map (λ v. v.items) owners.now) }
    ensures rows { IfOk result (λ rows. AreOwned students (map (λ v. v.items) owners.now) rows.items) }
    ensures err { IfErr result (λ fault. fault ≡ Memory) }
{
    let mut rows = vec![in alloc; NodeSet::empty(); students + 1]?;
    for index in 0..owners.len() {
        give(&mut rows, Rank::at(index as u64), &owners[index]);
    }
    Ok(rows)
}

/// Adds a node to the set of each of its owners. `rows` has the set of each student's nodes, by the student's index,
/// and must have a set for each owner.
fn give(rows: &mut [NodeSet], node: Rank, owners: &[Student])
    requires { All (λ s. s < length rows.old) owners.now }
    ensures { (s i : ℕ) → set.contains (row_at rows.new s) i ≡ (set.contains (row_at rows.old s) i
        || (i == node && list_any (λ o. o == s) owners.now)) }
{
    for owner in owners {
        let index = usize::from(owner.index());
        rows[index] = rows[index].with(node);
    }
}
