//! The students of a file, by their names.
//!
//! The map of students has each student's key under the student's name, in the file's order. In a contract, `Gives`
//! means that a function returns the result that a definition names, or `Memory` if memory runs out.
ghost use Rattle.std.specs.Prelude.{◌≡◌, [], ◌∷◌, ◌++◌, map, string_bytes, None, ◌||◌, IfErr, OnOk, is_some, bytes_eq};
ghost use Rattle.std.specs.Map.{lookup};
ghost use Rattle.std.specs.String.{string_eq};
ghost use Rattle.indexmap.specs.IndexMap.{get};
ghost use Rattle.mml_ids.specs.Gives.{Gives, unless_fault};
ghost use Rattle.mml_lab.specs.declared.lab_fault.LabFault.TheVariants.{Memory};
ghost use Rattle.mml_lab.specs.AccountView.{account_view, entry_account};
ghost use Rattle.mml_lab_file.specs.Shape.{is_lab_memory};
ghost use Rattle.mml_lab_file.specs.Reading.{name_twice};

use indexmap::IndexMap;
use mml_lab::{Account, LabFault};
use std::alloc::Global;

/// Returns whether a name is in use: it is the teacher's name `teacher`, or the name of a student in the map.
fn is_taken(students: &IndexMap<String, String>, teacher: &str, name: &str) -> bool
    ensures { result ≡ (bytes_eq name.now teacher.now
        || is_some (lookup (λ k. bytes_eq name.now (string_bytes k)) students.now.entries)) }
{
    name == teacher || students.contains_key(name)
}

/// Returns the map of the students. Returns `NameTwice` for the first student whose name the teacher or an earlier
/// student has, with the student's index, counted from 1. Returns `Memory` if memory runs out.
pub(crate) fn students_map(
    alloc: Global,
    teacher: &Account,
    students: Vec<Account>,
) -> Result<IndexMap<String, String>, LabFault>
    ensures { Gives is_lab_memory (λ m. map entry_account m.entries) result
        (unless_fault (name_twice (account_view teacher.now ∷ map account_view students.items))
        (map account_view students.items)) }
{
    let mut found = IndexMap::new(alloc);
    fill(&mut found, teacher, students)?;
    Ok(found)
}

/// Puts the students' names and keys into an empty map, in order. Stops at the first student whose name the teacher or
/// an earlier student has, and returns `NameTwice` with this student's index, counted from 1. Returns `Memory` if
/// memory runs out.
#[tactic(auto, using(crate::proofs::NameTwiceLemmas::at_start, crate::proofs::NameTwiceLemmas::absent, crate::proofs::NameTwiceLemmas::at_end))]
fn fill(
    found: &mut IndexMap<String, String>,
    teacher: &Account,
    students: Vec<Account>,
) -> Result<(), LabFault>
    requires { found.old.entries ≡ [] }
    ensures { Gives is_lab_memory (λ _. map entry_account found.new.entries) result
        (unless_fault (name_twice (account_view teacher.now ∷ map account_view students.items))
        (map account_view students.items)) }
{
    for student in students {
        let Account { name, key } = student;
        if is_taken(found, teacher.name.as_str(), name.as_str()) {
            return Err(LabFault::NameTwice(found.len() + 1));
        }
        append(found, name, key)?;
    }
    Ok(())
}

/// Appends a name with its key to the map, which must not have the name yet. Returns `Memory` if memory runs out.
#[tactic(auto, using(crate::proofs::RawLemmas::new_entries))]
fn append(found: &mut IndexMap<String, String>, name: String, key: String) -> Result<(), LabFault>
    requires { get string_eq found.old name ≡ None }
    ensures entries { OnOk result (found.new.entries ≡ found.old.entries ++ (name, key) ∷ []) }
    ensures err { IfErr result (λ fault. fault ≡ Memory) }
{
    found.insert(name, key)?;
    Ok(())
}
