//! The roster: who takes part, and who owns each node.
//!
//! The rank of a node is its index in the rising order of identifiers. `students` has each student's key under the
//! student's name, in the file's order. `owned` has the set of the nodes that each student owns, by student, and an
//! empty set at the end.
ghost use Rattle.std.specs.Prelude.{◌≡◌, ◌<◌, ◌≤◌, length, map, position, slice_index_or, Some, None, IfSome, IsTrue, ◌&&◌, ℕ, IfOk, IfErr};
ghost use Rattle.std.specs.FinSet as set;
ghost use Rattle.mml_lab.specs.declared.who.Who.TheVariants.{Student as AStudent};
ghost use Rattle.mml_lab.specs.declared.TheConstants.{MAX_NAME};
ghost use Rattle.mml_lab.specs.declared.lab_fault.LabFault.TheVariants.{Memory};
ghost use Rattle.mml_ids.specs.declared.TheConstants.{MAX_NODES};
ghost use Rattle.mml_lab.specs.AccountView.{account_view, entry_account};
ghost use Rattle.mml_lab.specs.Rosters.{principal, student_named, owns, name_of, is_name, has_name_and_key, no_account, with_owners, IsPrincipal, IsRoster};

use crate::accounts::Account;
use crate::lab_fault::LabFault;
use crate::owned::owned_by_each;
use crate::who::{Student, Who};
use indexmap::IndexMap;
use mml_ids::{NodeSet, Rank};
use std::alloc::Global;
use std::marker::Model;

/// The participants of a lab, with their names and keys, and the owners of each node.
#[derive(Drop)]
pub struct Roster {
    teacher: Account,
    // the key of each student under the student's name, in the file's order
    students: IndexMap<String, String>,
    // the owners of each node, by rank
    owners: Vec<Vec<Student>>,
    // the set of the nodes that each student owns, by student; after the last student comes an empty set
    owned: Vec<NodeSet>,
}

impl Model for Roster {
    ghost use Rattle.mml_lab.specs.Rosters.{RosterValue};

    ghost Value = { RosterValue };

    ghost use Rattle.mml_lab.specs.inside.RosterView.{roster_view, IsRosterInside};

    ghost view = { roster_view };

    ghost invariant = { IsRosterInside };
}

impl Roster {
    /// Returns the roster with this teacher, the students' names and keys in the file's order, and the owners of each
    /// node, by rank. Names and keys must be well-formed, and no two participants may have the same name. There may be
    /// at most 256 students and 256 nodes, and each owner must be one of the students. Returns `Memory` if memory runs
    /// out.
    pub fn new(
        alloc: Global,
        teacher: Account,
        students: IndexMap<String, String>,
        owners: Vec<Vec<Student>>,
    ) -> Result<Roster, LabFault>
        requires lawful { IsRoster (with_owners (account_view teacher)
            (map entry_account students.entries) (map (λ v. v.items) owners.items)) }
        requires nodes { length owners.items ≤ MAX_NODES }
        ensures roster { IfOk result (λ roster. roster ≡ with_owners (account_view teacher)
            (map entry_account students.entries) (map (λ v. v.items) owners.items)) }
        ensures err { IfErr result (λ fault. fault ≡ Memory) }
    {
        let owned = owned_by_each(alloc, students.len(), &owners)?;
        Ok(Roster {
            teacher,
            students,
            owners,
            owned,
        })
    }

    /// Returns the number of students.
    pub fn student_count(&self) -> u64
        ensures count { result ≡ length self.now.students }
        ensures roster { IsRoster self.now }
    {
        self.students.len() as u64
    }

    /// Returns the participant who has this name and this key, or `None` if nobody has both.
    pub fn hello(&self, name: &str, key: &str) -> Option<Who>
        ensures value { result ≡ principal self.now name.now key.now }
        ensures member { IfSome result (IsPrincipal self.now) }
        ensures roster { IsRoster self.now }
    {
        let teacher = &self.teacher;
        if are_name_and_key(name, key, teacher.name.as_str(), teacher.key.as_str()) {
            return Some(Who::Teacher);
        }
        let index = student_with(&self.students, name, key);
        index.map(|index| Who::Student(Student::new(index as u16)))
    }

    /// Returns the nodes that `who` owns: none for the teacher, and none for a student who isn't in the roster. Takes
    /// the same steps for all students, whatever they own.
    pub fn owned(&self, who: Who) -> NodeSet
        ensures { (i : ℕ) → set.contains result i ≡ owns self.now who i }
    {
        match who {
            Who::Teacher => NodeSet::empty(),
            Who::Student(student) => {
                self.owned[usize::from(student.index()).min(self.students.len())]
            }
        }
    }

    /// Returns whether `who` owns the node. The teacher owns none.
    pub fn owns(&self, who: Who, node: Rank) -> bool
        ensures { result ≡ owns self.now who node }
    {
        self.owned(who).has(node)
    }

    /// Returns the name of a participant, who must be in the roster.
    pub fn name_of(&self, who: Who) -> &str
        requires { IsPrincipal self.now who }
        ensures value { result.now ≡ name_of self.now who }
        ensures formed { IsTrue (is_name result.now) }
        ensures short { length result.now ≤ MAX_NAME }
    {
        match who {
            Who::Teacher => self.teacher.name.as_str(),
            Who::Student(student) => match self.students.get_index(usize::from(student.index())) {
                Some((name, _)) => name.as_str(),
                None => unreachable!(),
            },
        }
    }

    /// Returns the student with the name `name`, or `None` if no student has it.
    pub fn student_named(&self, name: &str) -> Option<Student>
        ensures value { result ≡ student_named self.now name.now }
        ensures member { IfSome result (λ s. s < length self.now.students) }
        ensures back { IfSome result (λ s. name_of self.now (AStudent s) ≡ name.now) }
    {
        let index = self.students.get_index_of(name);
        index.map(|index| Student::new(index as u16))
    }
}

/// Returns whether `name` and `key` are the name `known` and the key `secret` of an account. Compares both, even if the
/// names differ, so that the time that it takes doesn't reveal whether the name exists.
fn are_name_and_key(name: &str, key: &str, known: &str, secret: &str) -> bool
    ensures { result ≡
        has_name_and_key name.now key.now (record { name = known.now; key = secret.now }) }
{
    let is_named = name == known;
    let is_keyed = key == secret;
    is_named & is_keyed
}

/// Returns the index of the student with this name and this key, from 0 in the file's order, or `None` if no student
/// has both. Goes on after the student is found, and compares the name and the key of every student. So a student's
/// name takes the same steps as an unknown name of the same length.
fn student_with(students: &IndexMap<String, String>, name: &str, key: &str) -> Option<usize>
    ensures value { result ≡
        position (has_name_and_key name.now key.now) (map entry_account students.now.entries) }
    ensures within { IfSome result (λ index. index < length students.now.entries) }
{
    let mut found = None;
    for index in 0..students.len() {
        if is_at(students, index, name, key) && found.is_none() {
            found = Some(index);
        }
    }
    found
}

/// Returns whether the student at this index, which must exist, has this name and this key.
fn is_at(students: &IndexMap<String, String>, index: usize, name: &str, key: &str) -> bool
    requires { index < length students.now.entries }
    ensures { result ≡ has_name_and_key name.now key.now
        (slice_index_or (map entry_account students.now.entries) index no_account) }
{
    match students.get_index(index) {
        Some((known, secret)) => are_name_and_key(name, key, known.as_str(), secret.as_str()),
        None => unreachable!(),
    }
}
