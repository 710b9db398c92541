//! A comparison of two labs, part by part.
//!
//! The rank of a node is its index in the rising order of identifiers. The roster has the teacher, the students, and
//! the owners of each node.
ghost use Rattle.std.specs.Prelude.{◌≡◌, ◌↔◌, ◌<◌, IsTrue, IfOk, length};
ghost use Rattle.mml_lab_file.specs.Sameness.{HasSameLinks, HasSameOwners, HasSameNames, IsSameNode, IsSameLab, SpellsSame};

use crate::read_lab;
use mml_ids::{IdTable, Memory, Rank};
use mml_lab::{Lab, LabFault, Roster, Student, Who};
use std::alloc::Global;

/// Returns whether the bytes are a lab file whose lab is the same as `lab`, as `is_same_lab` compares them. Returns
/// `false` if they aren't a lab file or the file has an error, and `Memory` if memory runs out.
pub fn spells_same_lab(alloc: Global, lab: &Lab, bytes: &[u8]) -> Result<bool, Memory>
    ensures { IfOk result (λ same. IsTrue same ↔ SpellsSame lab.now bytes.now) }
{
    match read_lab(alloc, bytes) {
        Ok(other) => {
            let is_same = is_same_lab(lab, &other);
            // A call of `drop` keeps the proof short.
            drop(other);
            Ok(is_same)
        }
        Err(LabFault::Memory) => Err(Memory),
        Err(_) => Ok(false),
    }
}

/// Returns whether two labs have the same identifiers, links, registers and owners of nodes, and the same names of the
/// teacher and the students. The participants' keys and the limits on events and sessions may differ.
pub fn is_same_lab(a: &Lab, b: &Lab) -> bool
    ensures { IsTrue result ↔ IsSameLab a.now b.now }
{
    if !has_same_ids(a.ids(), b.ids()) {
        return false;
    }
    if !has_same_names(a.roster(), b.roster()) {
        return false;
    }
    for index in 0..a.node_count() {
        if !is_same_node(a, b, Rank::at(index)) {
            return false;
        }
    }
    true
}

/// Returns whether two tables have the same identifiers.
fn has_same_ids(a: &IdTable, b: &IdTable) -> bool
    ensures { IsTrue result ↔ (a.now ≡ b.now) }
{
    if a.len() != b.len() {
        return false;
    }
    for index in 0..a.len() {
        if a.id_of(Rank::at(index)) != b.id_of(Rank::at(index)) {
            return false;
        }
    }
    true
}

/// Returns whether two rosters have the same names: the teacher's, and the students' in the same order.
fn has_same_names(a: &Roster, b: &Roster) -> bool
    ensures { IsTrue result ↔ HasSameNames a.now b.now }
{
    if a.name_of(Who::Teacher) != b.name_of(Who::Teacher) {
        return false;
    }
    if a.student_count() != b.student_count() {
        return false;
    }
    for index in 0..a.student_count() {
        if a.name_of(student_at(index)) != b.name_of(student_at(index)) {
            return false;
        }
    }
    true
}

/// Returns whether the node of this rank, which must exist, has the same registers, links and owners in both labs. The
/// labs must have the same number of nodes and the same number of students.
fn is_same_node(a: &Lab, b: &Lab, node: Rank) -> bool
    requires here { node < length a.now.ids }
    requires ids { length a.now.ids ≡ length b.now.ids }
    requires students { length a.now.roster.students ≡ length b.now.roster.students }
    ensures { IsTrue result ↔ IsSameNode a.now b.now node }
{
    if a.regs(node) != b.regs(node) {
        return false;
    }
    has_same_links(a, b, node) && has_same_owners(a.roster(), b.roster(), node)
}

/// Returns whether the node of this rank, which must exist, has the same links in both labs. The labs must have the
/// same number of nodes.
fn has_same_links(a: &Lab, b: &Lab, node: Rank) -> bool
    requires here { node < length a.now.ids }
    requires ids { length a.now.ids ≡ length b.now.ids }
    ensures { IsTrue result ↔ HasSameLinks a.now b.now node }
{
    for index in 0..a.node_count() {
        let other = Rank::at(index);
        if a.linked(node, other) != b.linked(node, other) {
            return false;
        }
    }
    true
}

/// Returns whether the node of this rank is owned by the same students in both rosters, which must have the same number
/// of students.
fn has_same_owners(a: &Roster, b: &Roster, node: Rank) -> bool
    requires { length a.now.students ≡ length b.now.students }
    ensures { IsTrue result ↔ HasSameOwners a.now b.now node }
{
    for index in 0..a.student_count() {
        if a.owns(student_at(index), node) != b.owns(student_at(index), node) {
            return false;
        }
    }
    true
}

/// Returns the participant who is the student with this index, from 0 in the file's order. The index must be below 256.
fn student_at(index: u64) -> Who
    requires { index < 256 }
    ensures { result ≡ Who.Student index }
{
    Who::Student(Student::new(index as u16))
}
