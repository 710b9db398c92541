//! Why a lab file or a journal is refused, in the words of the error lines.
//!
//! A lab file describes a class: its network, its participants and its limits. A journal has a line for each granted
//! event of a run.
ghost use Rattle.mml_program.specs.Faults.{IsOfAudit};

use mml_audit::AuditFault;
use mml_ids::IdFault;
use mml_lab::{Key, LabFault};
use thiserror::Error;

/// Why a file doesn't describe a lab, in the words of the error line.
#[derive(Debug, Drop, PartialEq, Eq, Error)]
pub enum LabRefusal {
    /// The error is about the file as a whole.
    #[error("{0}")]
    File(&'static str),
    /// The error is about the value of the key with this name.
    #[error("{0} {1}")]
    Key(&'static str, &'static str),
    /// The error is about a node, a link or a principal (a participant) with this number. Nodes and links are numbered
    /// from 0, in the order of the file. The teacher is principal 0, and the students are numbered from 1.
    #[error("{0} {1}: {2}")]
    Element(&'static str, usize, &'static str),
}

impl LabRefusal {
    /// Returns the reason why a lab file with this error is refused, or `None` if the error is that memory ran out.
    pub fn of(fault: LabFault) -> Option<LabRefusal> {
        let refusal = match fault {
            LabFault::NotToml => LabRefusal::File("not a TOML document"),
            LabFault::Missing(key) => LabRefusal::Key(key_name(key), "is missing"),
            LabFault::WrongKind(key) => LabRefusal::Key(key_name(key), "is of the wrong kind"),
            LabFault::BothOwners(index) => LabRefusal::node(index, "owner and owners"),
            LabFault::Id(fault) => return LabRefusal::of_identifiers(fault),
            LabFault::Name(index) => LabRefusal::Element("principal", index, "bad name or key"),
            LabFault::NameTwice(index) => LabRefusal::Element(
                "principal",
                index,
                "name stands twice",
            ),
            LabFault::NoOwner(index) => LabRefusal::node(index, "no such owner"),
            LabFault::OwnerTwice(index) => LabRefusal::node(index, "owner stands twice"),
            LabFault::LinkEnd(index) => LabRefusal::Element("link", index, "no such node"),
            LabFault::Loop(index) => LabRefusal::Element("link", index, "a loop"),
            LabFault::LinkTwice(index) => LabRefusal::Element("link", index, "stands twice"),
            LabFault::BadPointer(index) => LabRefusal::node(index, "p is not a neighbour"),
            LabFault::Limit(key) => LabRefusal::Key(key_name(key), "is out of its limits"),
            LabFault::Memory => return None,
        };
        Some(refusal)
    }

    /// Returns the reason why a lab file is refused if its nodes' identifiers have this error. Returns `None` if the
    /// error is that memory ran out.
    fn of_identifiers(fault: IdFault) -> Option<LabRefusal> {
        match fault {
            IdFault::Empty => Some(LabRefusal::File("no nodes")),
            IdFault::TooMany => Some(LabRefusal::File("too many nodes")),
            IdFault::OutOfRange(index) => Some(LabRefusal::node(index, "identifier out of range")),
            IdFault::Twice(index) => Some(LabRefusal::node(index, "identifier stands twice")),
            IdFault::Memory => None,
        }
    }

    /// Returns the refusal of a lab file for this `reason`, which is about the node with this `index`, from 0 in the
    /// file's order.
    fn node(index: usize, reason: &'static str) -> LabRefusal {
        LabRefusal::Element("node", index, reason)
    }
}

/// Why a text isn't the journal of a lab. The first number is that of the first bad line.
#[derive(Debug, Drop, PartialEq, Eq, Error)]
pub enum AuditRefusal {
    /// The line can't be in a journal here, for this reason.
    #[error("line {0}: {1}")]
    Line(u64, &'static str),
    /// The rules deny the line's event; the text is the denial's name.
    #[error("line {0}: illegal, {1}")]
    Illegal(u64, &'static str),
}

impl AuditRefusal {
    /// Returns the reason why the text of a journal with this error is refused, or `None` if the error is that memory
    /// ran out.
    pub fn of(fault: AuditFault) -> Option<AuditRefusal>
        ensures { IsOfAudit fault result }
    {
        match fault {
            AuditFault::Torn(line) => Some(AuditRefusal::Line(line, "torn")),
            AuditFault::Shape(line) => Some(AuditRefusal::Line(line, "not an event")),
            AuditFault::Place(line) => Some(AuditRefusal::Line(
                line,
                "wrong place or configuration",
            )),
            AuditFault::Illegal(line, denial) => Some(AuditRefusal::Illegal(line, denial.name())),
            AuditFault::Full(line) => Some(AuditRefusal::Line(line, "over the limit of events")),
            AuditFault::Memory => None,
        }
    }
}

/// Returns the name of a lab file's key, as it is written in the error lines.
fn key_name(key: Key) -> &'static str {
    match key {
        Key::Events => "events",
        Key::Sessions => "sessions",
        Key::Teacher => "teacher",
        Key::TeacherName => "teacher.name",
        Key::TeacherKey => "teacher.key",
        Key::Student => "student",
        Key::StudentName => "student.name",
        Key::StudentKey => "student.key",
        Key::Node => "node",
        Key::NodeId => "node.id",
        Key::NodeOwner => "node.owner",
        Key::NodeOwners => "node.owners",
        Key::NodeP => "node.p",
        Key::NodeM => "node.m",
        Key::Links => "links",
        Key::Link => "link",
    }
}
