//! The lab of a file without an error.
//!
//! The rank of a node is its index in the rising order of identifiers. The registers of a node are its pointer p and m,
//! which is true or false. A `RawNode` is a node as the file describes it. The map of students has each student's key
//! under the student's name, in the file's order. In a contract, `Gives` means that a function returns the result that
//! a definition names, or `Memory` if memory runs out.
ghost use Rattle.std.specs.Prelude.{◌≡◌, ◌≤◌, ◌==◌, map, length, IfOk, IfErr, option_copied, string_bytes, Ok};
ghost use Rattle.std.specs.List.{find};
ghost use Rattle.mml_ids.specs.Gives.{Gives};
ghost use Rattle.mml_lab.specs.declared.TheConstants.{MAX_STUDENTS};
ghost use Rattle.mml_lab_file.specs.Shape.{is_lab_memory};
ghost use Rattle.mml_lab_file.specs.inside.Raw.{node_view};
ghost use Rattle.mml_lab.specs.AccountView.{entry_account};
ghost use Rattle.mml_lab.specs.Labs.{IsLab};
ghost use Rattle.mml_lab_file.specs.Reading.{number_of, registers_in, registers_with, student_index, owners_in, owners_with, node_with};
ghost use Rattle.mml_lab_file.specs.inside.ChecksView.{checked_view};
ghost use Rattle.mml_lab.specs.declared.lab_fault.LabFault.TheVariants.{Memory};

use crate::checks::{Checked, number_of};
use crate::links::rank_at;
use crate::raw_lab::RawNode;
use indexmap::IndexMap;
use mml_ids::{IdTable, Rank};
use mml_lab::{Lab, LabFault, Roster, Student};
use mml_rules::{Network, Regs};
use std::alloc::Global;

/// Returns the lab of a file whose contents passed the checks. Returns `Memory` if memory runs out; no other error can
/// occur.
#[tactic(auto, unfolding(crate::specs::inside::Checks::lab_with))]
pub(crate) fn build(alloc: Global, checked: Checked) -> Result<Lab, LabFault>
    requires { IsLab (checked_view checked) }
    ensures { Gives is_lab_memory (λ lab. lab) result (Ok (checked_view checked)) }
{
    let (registers, owners) = registers_and_owners(alloc, &checked)?;
    let Checked {
        ids,
        teacher,
        students,
        nodes: _,
        neighbours,
        events,
        sessions,
    } = checked;
    let network = Network::of(neighbours, registers);
    let roster = Roster::new(alloc, teacher, students, owners)?;
    Ok(Lab::new(ids, roster, network, events, sessions))
}

/// Returns the registers (first) and the owners (second) of each node, both by rank, as a checked file describes them.
/// There may be at most 256 students. Returns `Memory` if memory runs out.
fn registers_and_owners(
    alloc: Global,
    checked: &Checked,
) -> Result<(Vec<Regs>, Vec<Vec<Student>>), LabFault>
    requires { length checked.now.students.entries ≤ MAX_STUDENTS }
    ensures registers { IfOk result (λ parts. parts.0.items ≡ map (registers_with
        checked.now.ids (map node_view checked.now.nodes.items)) checked.now.ids) }
    ensures owners { IfOk result (λ parts. map (λ v. v.items) parts.1.items ≡ map (owners_with
        (map entry_account checked.now.students.entries) (map node_view checked.now.nodes.items))
        checked.now.ids) }
    ensures err { IfErr result (λ fault. fault ≡ Memory) }
{
    let registers = registers(alloc, &checked.ids, &checked.nodes)?;
    let owners = owners(alloc, &checked.ids, &checked.nodes, &checked.students)?;
    Ok((registers, owners))
}

/// Returns the registers of each node, by rank. `ids` has the identifiers of the nodes, and `nodes` the nodes as the
/// file describes them. Returns `Memory` if memory runs out.
pub(crate) fn registers(
    alloc: Global,
    ids: &IdTable,
    nodes: &[RawNode],
) -> Result<Vec<Regs>, LabFault>
    ensures ok { IfOk result (λ regs.
        regs.items ≡ map (registers_with ids.now (map node_view nodes.now)) ids.now) }
    ensures err { IfErr result (λ fault. fault ≡ Memory) }
{
    let mut found = Vec::new(alloc);
    for index in 0..ids.len() {
        found.push(registers_with(ids, nodes, ids.id_of(Rank::at(index))))?;
    }
    Ok(found)
}

/// Returns the registers of the node with the identifier `id`. If the file has no such node, p is null and m is false.
#[tactic(auto, using(crate::proofs::RawLemmas::find_of_map))]
fn registers_with(ids: &IdTable, nodes: &[RawNode], id: u64) -> Regs
    ensures { result ≡ registers_with ids.now (map node_view nodes.now) id }
{
    match node_with(nodes, id) {
        Some(node) => registers_in(ids, node),
        None => Regs { p: None, m: false },
    }
}

/// Returns the file's first node with the identifier `id`, or `None` if there is none.
fn node_with(nodes: &[RawNode], id: u64) -> Option<&RawNode>
    ensures { option_copied result ≡ find (λ node. number_of node.id == id) nodes.now }
{
    nodes.iter().find(|node| number_of(node.id) == id)
}

/// Returns a node's registers as the file describes them. The pointer is the rank of the node that the file's p names.
/// It is null if p is left out or names no node.
#[tactic(auto, unfolding(crate::specs::inside::Checks::rank_at))]
fn registers_in(ids: &IdTable, node: &RawNode) -> Regs
    ensures { result ≡ registers_in ids.now (node_view node.now) }
{
    let p = node.p.and_then(|p| rank_at(ids, p));
    Regs { p, m: node.m }
}

/// Returns the owners of each node, by rank. `ids` has the identifiers of the nodes, and `nodes` the nodes as the file
/// describes them. There may be at most 256 students. Returns `Memory` if memory runs out.
pub(crate) fn owners(
    alloc: Global,
    ids: &IdTable,
    nodes: &[RawNode],
    students: &IndexMap<String, String>,
) -> Result<Vec<Vec<Student>>, LabFault>
    requires { length students.now.entries ≤ MAX_STUDENTS }
    ensures ok { IfOk result (λ owners. map (λ v. v.items) owners.items ≡ map
        (owners_with (map entry_account students.now.entries) (map node_view nodes.now)) ids.now) }
    ensures err { IfErr result (λ fault. fault ≡ Memory) }
{
    let mut found = Vec::new(alloc);
    for index in 0..ids.len() {
        found.push(owners_with(alloc, students, nodes, ids.id_of(Rank::at(index)))?)?;
    }
    Ok(found)
}

/// Returns the owners of the node with the identifier `id`, in the file's order. Returns an empty list if the file has
/// no such node, and `Memory` if memory runs out. There may be at most 256 students.
#[tactic(auto, using(crate::proofs::RawLemmas::find_of_map, crate::proofs::RawLemmas::map_of_map))]
fn owners_with(
    alloc: Global,
    students: &IndexMap<String, String>,
    nodes: &[RawNode],
    id: u64,
) -> Result<Vec<Student>, LabFault>
    requires { length students.now.entries ≤ MAX_STUDENTS }
    ensures ok { IfOk result (λ owners. owners.items ≡
        owners_with (map entry_account students.now.entries) (map node_view nodes.now) id) }
    ensures err { IfErr result (λ fault. fault ≡ Memory) }
{
    match node_with(nodes, id) {
        Some(node) => owners_in(alloc, students, &node.owners),
        None => Ok(Vec::new(alloc)),
    }
}

/// Returns the students with the names in `names`, in order. For a name that no student has, the list has the first
/// student; the checks of a file exclude this case. There may be at most 256 students. Returns `Memory` if memory runs
/// out.
fn owners_in(
    alloc: Global,
    students: &IndexMap<String, String>,
    names: &[String],
) -> Result<Vec<Student>, LabFault>
    requires { length students.now.entries ≤ MAX_STUDENTS }
    ensures ok { IfOk result (λ owners. owners.items ≡
        map (λ name. student_index (map entry_account students.now.entries) (string_bytes name)) names.now) }
    ensures err { IfErr result (λ fault. fault ≡ Memory) }
{
    let mut found = Vec::new(alloc);
    for name in names {
        found.push(student_named(students, name.as_str()))?;
    }
    Ok(found)
}

/// Returns the student with this name, or the first student if no student has it. The checks of a file exclude the
/// second case. There may be at most 256 students.
#[tactic(auto, using(crate::proofs::RawLemmas::student_at))]
fn student_named(students: &IndexMap<String, String>, name: &str) -> Student
    requires { length students.now.entries ≤ MAX_STUDENTS }
    ensures { result ≡ student_index (map entry_account students.now.entries) name.now }
{
    let index = students.get_index_of(name).unwrap_or(0);
    Student::new(index as u16)
}
