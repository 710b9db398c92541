//! Tests that compare a lab file with the lab that is read from it. An error means that memory ran out, or is that of
//! a lab file. The rank of a node is its index in the rising order of identifiers.
//!
//! A function that owns few large values, such as labs, has a short proof, so some functions only make one and pass it
//! on.
ghost use Rattle.std.specs.Prelude.{◌<◌, length};

use mml_fakes::labs::boxed_lab;
use mml_ids::{Memory, Rank};
use mml_lab::{Lab, Roster, Student, Who};
use mml_rules::Network;
use std::alloc::{AllocError, Global};
use std::test::Fail;

/// Returns a character for the relation of a node of the lab to the node `other`. For two linked nodes the character is
/// `>` if the node points at the other, and `-` if it doesn't. For two nodes without a link it is `!` if the node
/// points at the other, and `.` if it doesn't.
fn mark(lab: &Lab, node: Rank, other: Rank) -> &'static str
    requires { node < length lab.now.ids }
{
    let points = lab.regs(node).p == Some(other);
    match (lab.linked(node, other), points) {
        (true, true) => ">",
        (true, false) => "-",
        (false, true) => "!",
        (false, false) => ".",
    }
}

/// Appends the names of a node's owners to a text, without a separator, in the order of the lab's students.
fn push_owners(text: &mut String, lab: &Lab, node: Rank) -> Result<(), AllocError> {
    let roster = lab.roster();
    for index in 0..roster.student_count() {
        let student = &Who::Student(Student::new(index as u16));
        if roster.owns(*student, node) {
            text.push_str(roster.name_of(*student))?;
        }
    }
    Ok(())
}

/// Appends one character for each node of the lab to a text, in the order of ranks: the one that `mark` returns for the
/// relation of `node` to it. `node` must be a node of the lab.
fn push_marks(text: &mut String, lab: &Lab, node: Rank) -> Result<(), AllocError>
    requires { node < length lab.now.ids }
{
    for index in 0..lab.node_count() {
        text.push_str(mark(lab, node, Rank::at(index)))?;
    }
    Ok(())
}

/// Appends a newline and the line of a node of the lab to a text: its identifier, its m, its owners, and its relations
/// to all nodes.
fn push_node(text: &mut String, lab: &Lab, node: Rank) -> Result<(), AllocError>
    requires { node < length lab.now.ids }
{
    let id = lab.ids().id_of(node);
    let m = lab.regs(node).m;
    write!(text, "\n{id} {m} ")?;
    push_owners(text, lab, node)?;
    text.push_str(" ")?;
    push_marks(text, lab, node)
}

/// Returns a lab as text: a line with the numbers of its events, sessions, nodes, links and students, and then a line
/// for each node.
fn shown(alloc: Global, lab: &Lab) -> Result<String, AllocError> {
    let mut text = String::new(alloc);
    for count in [
        lab.events(),
        u64::from(lab.sessions()),
        lab.node_count(),
        lab.link_count(),
        lab.student_count(),
    ] {
        write!(text, "{count} ")?;
    }
    for index in 0..lab.node_count() {
        push_node(&mut text, lab, Rank::at(index))?;
    }
    Ok(text)
}

// A lab file in which the students have another order than their nodes, a node has two owners, and the highest node
// points at another.
const DOCUMENT: &str = r#"
events = 100
sessions = 4
links = [[1, 4], [7, 1], [1, 65535]]
teacher = { name = "tess", key = "chalk" }
student = [
  { name = "ana", key = "a-key" },
  { name = "ben", key = "b-key" },
  { name = "cyd", key = "c-key" },
]
node = [
  { id = 1, owner = "ben" },
  { id = 4, owners = ["cyd", "ben"] },
  { id = 65535, owner = "ana", m = true, p = 1 },
  { id = 7, owner = "ben" },
]
"#;

// The text of the lab of `DOCUMENT`, worked out by hand.
const SHOWN: &str =
    "100 4 4 3 3 \n1 false ben .---\n4 false bencyd -...\n7 false ben -...\n65535 true ana >...";

// A name, and the index of the student with that name.
const INDEXES: [(&str, Option<u16>); 7] = [
    ("ana", Some(0)),
    ("ben", Some(1)),
    ("cyd", Some(2)),
    ("tess", None),
    ("Ana", None),
    ("an", None),
    ("", None),
];

/// Returns the first name of `INDEXES` whose student has a wrong index in a roster, or `None` if all are right.
fn first_other_index(roster: &Roster) -> Option<&'static str> {
    for (name, index) in INDEXES {
        if roster.student_named(name).map(Student::index) != index {
            return Some(name);
        }
    }
    None
}

/// Returns whether two networks have the same links and registers at a node. Returns `false` too if the node is missing
/// in one of them. The sizes are compared first, since the contracts of the other calls require the node.
fn is_same_at(network: &Network, other: &Network, node: Rank) -> bool {
    if node.index() >= network.size() || node.index() >= other.size() {
        return false;
    }
    let (row, its) = (network.neighbours(node), other.neighbours(node));
    let is_linked_so = row.without(its).len() == 0 && its.without(row).len() == 0;
    is_linked_so && network.registers(node) == other.registers(node)
}

/// Returns whether a copy of a network has the same nodes, links and registers as the network.
fn is_copied(alloc: Global, network: &Network) -> Result<bool, Memory> {
    let copy = network.try_copy(alloc)?;
    for index in 0..network.size() {
        if !is_same_at(network, &copy, Rank::at(index)) {
            return Ok(false);
        }
    }
    Ok(copy.size() == network.size())
}

/// Returns three results. The first is a lab as text, and the second is whether a copy of its network is right. The
/// third is the first name of `INDEXES` whose student has a wrong index in the lab's roster, or `None` if there is no
/// such name.
fn shown_of_lab(alloc: Global, lab: &Lab) -> Result<(String, bool, Option<&'static str>), Fail> {
    let text = shown(alloc, lab)?;
    Ok((
        text,
        is_copied(alloc, lab.network())?,
        first_other_index(lab.roster()),
    ))
}

/// Reads the lab of a lab file. Returns whether the lab's text is `wanted`, whether a copy of its network is right, and
/// the result of `first_other_index` for its roster.
fn is_document_shown(
    alloc: Global,
    document: &str,
    wanted: &str,
) -> Result<(bool, bool, Option<&'static str>), Fail> {
    let lab = boxed_lab(alloc, document)?;
    let (text, is_copied, other) = shown_of_lab(alloc, &lab)?;
    Ok((text.as_str() == wanted, is_copied, other))
}

/// Checks that the numbers, links, registers, owners and names of `DOCUMENT` are read rightly. Also checks that a copy
/// of its network is right.
#[test]
fn a_document_is_read(rt: HostRuntime) -> Result<(), Fail> {
    assert_eq!(rt;
        is_document_shown(rt.alloc(), DOCUMENT, SHOWN)?,
        (true, true, None)
    );
    Ok(())
}
