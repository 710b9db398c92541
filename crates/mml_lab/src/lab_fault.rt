ghost use Rattle.std.specs.Prelude.{◌≡◌};
ghost use Rattle.mml_lab.specs.declared.lab_fault.LabFault.TheVariants.{Memory};

use mml_ids::IdFault;
use std::alloc::{AllocError, AllocFailed};

/// The keys of a lab file, in the order in which they are read. A variant like `NodeOwner` is a key inside a table,
/// here the key `owner` of an element of the array `node`.
#[derive(Clone, Copy, Debug)]
pub enum Key {
    /// `events`: the greatest number of events that a run may have.
    Events,
    /// `sessions`: the greatest number of connections that there may be at once.
    Sessions,
    /// The table `teacher`.
    Teacher,
    TeacherName,
    TeacherKey,
    /// The array `student`, or an element of it.
    Student,
    StudentName,
    StudentKey,
    /// The array `node`, or an element of it.
    Node,
    NodeId,
    NodeOwner,
    NodeOwners,
    NodeP,
    NodeM,
    /// The array `links`.
    Links,
    /// An element of `links`.
    Link,
}

/// The first error of a lab file. Indices of nodes and links count from 0 in the file's order. Among the participants,
/// the teacher has the index 0, and the students count from 1.
#[derive(Clone, Copy, Debug)]
pub enum LabFault {
    /// The bytes aren't a TOML document.
    NotToml,
    /// The key is missing.
    Missing(Key),
    /// The value under the key is of another kind.
    WrongKind(Key),
    /// A node has both keys, `owner` and `owners`.
    BothOwners(usize),
    /// The nodes' identifiers can't be those of one network, for the reason inside, which is never `IdFault::Memory`.
    Id(IdFault),
    /// The name or the key of a participant isn't well-formed.
    Name(usize),
    /// Another participant before this one has the same name.
    NameTwice(usize),
    /// A node's owners include a name that no student has.
    NoOwner(usize),
    /// Both owners of a node are the same student.
    OwnerTwice(usize),
    /// An end of a link isn't a node of the file.
    LinkEnd(usize),
    /// A link joins a node to itself.
    Loop(usize),
    /// A link before this one has the same ends, in this order or the other.
    LinkTwice(usize),
    /// The pointer p of a node leads to a node that isn't its neighbour, or to no node.
    BadPointer(usize),
    /// The number of events, of sessions or of students is outside its range.
    Limit(Key),
    /// Memory ran out.
    Memory,
}

impl From<AllocError> for LabFault {
    ghost from_gives = { λ _ e. e ≡ Memory };

    /// Turns a failed allocation into `LabFault::Memory`, so that `?` returns it.
    fn from(_e: AllocError) -> LabFault {
        LabFault::Memory
    }
}

impl<T: Drop> From<AllocFailed<T>> for LabFault {
    ghost from_gives = { λ _ e. e ≡ Memory };

    /// Turns a failed allocation into `LabFault::Memory`, so that `?` returns it. Drops the value for which there was
    /// no memory.
    fn from(_e: AllocFailed<T>) -> LabFault {
        LabFault::Memory
    }
}
