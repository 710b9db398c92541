//! The checks that the contents of a lab file must pass.
//!
//! The rank of a node is its index in the rising order of identifiers. A `RawNode` is a node as the file describes it,
//! and a link is the pair of the identifiers of its ends. Errors have the indices of nodes and links in the file's
//! order, from 0. The map of students has each student's key under the student's name, in the file's order.
//!
//! Each function with the parameter `alloc` returns `Memory` if memory runs out. In a contract, `Gives` means that a
//! function returns the result that a definition names, or `Memory`. The clause `tests` of a contract says which error
//! is returned, if any. The other clauses say what `Ok` contains. Most functions are small, because each computes one
//! definition, or a part of one, that its contract names.
ghost use Rattle.std.specs.Prelude.{◌≡◌, ◌≤◌, ◌&&◌, ◌∷◌, not, position, map, length, string_bytes, IfOk};
ghost use Rattle.std.specs.List.{list_any};
ghost use Rattle.std.specs.Ordering.{int_eq};
ghost use Rattle.mml_ids.specs.Gives.{Gives, need};
ghost use Rattle.mml_ids.specs.Ids.{in_order};
ghost use Rattle.mml_lab.specs.declared.lab_fault.LabFault.TheVariants.{Limit};
ghost use Rattle.mml_lab_file.specs.Shape.{is_lab_memory};
ghost use Rattle.mml_lab_file.specs.Faults.{id_fault_as};
ghost use Rattle.mml_lab.specs.AccountView.{account_view, entry_account};
ghost use Rattle.mml_lab_file.specs.inside.Raw.{node_view, raw_view};
ghost use Rattle.mml_lab.specs.Rosters.{has_name};
ghost use Rattle.mml_lab_file.specs.Reading.{number_of, file_ids, joins, is_linked, lacks_owner, are_one_twice, points_at_unlinked, is_within, both_fault, ids_fault};
ghost use Rattle.mml_lab_file.specs.Reading.{forms_fault, no_owner_fault, owner_twice_fault, pointers_fault, pass_unless, identified, enrolled, owned, limited, lab_from};
ghost use Rattle.mml_lab_file.specs.inside.ChecksView.{checked_view, found_view};

use crate::enrolling::students_map;
use crate::forms::first_malformed;
use crate::links::neighbours;
use crate::raw_lab::{RawLab, RawLimits, RawNode};
use indexmap::IndexMap;
use mml_ids::{IdFault, IdTable, NodeSet};
use mml_lab::{Account, Key, LabFault, MAX_EVENTS, MAX_SESSIONS, MAX_STUDENTS};
use std::alloc::{AllocError, Global};

/// Returns the number itself, or 0 if it is negative. Like 0, a negative number is no valid identifier, and no valid
/// number of events or of sessions.
pub(crate) fn number_of(number: i64) -> u64
    ensures { result ≡ number_of number }
{
    u64::try_from(number).unwrap_or(0)
}

/// The contents of a file without an error: its nodes and their identifiers, the participants, the neighbours of each
/// node by rank, and the limits of a run.
#[derive(Drop)]
pub struct Checked {
    pub ids: IdTable,
    pub teacher: Account,
    pub students: IndexMap<String, String>,
    pub nodes: Vec<RawNode>,
    pub neighbours: Vec<NodeSet>,
    pub events: u64,
    pub sessions: u8,
}

/// Checks the contents of a file. Returns the contents together with the results of the checks, or the first error in
/// the order of `LabFault`.
pub(crate) fn check(alloc: Global, raw: RawLab) -> Result<Checked, LabFault>
    ensures { Gives is_lab_memory checked_view result (lab_from (raw_view raw)) }
{
    let RawLab {
        bounds,
        teacher,
        students,
        nodes,
        links,
    } = raw;
    let Found {
        ids,
        students,
        neighbours,
        events,
        sessions,
    } = check_parts(alloc, &teacher, students, &nodes, &links, bounds)?;
    Ok(Checked {
        ids,
        teacher,
        students,
        nodes,
        neighbours,
        events,
        sessions,
    })
}

/// The results of the checks of a file. Together with the file's teacher and nodes, they are a `Checked`.
#[derive(Drop)]
struct Found {
    ids: IdTable,
    students: IndexMap<String, String>,
    neighbours: Vec<NodeSet>,
    events: u64,
    sessions: u8,
}

/// Checks the parts of a file. Returns the results of the checks, or the first error in the order of `LabFault`. The
/// teacher and the nodes are borrowed, and stay with the caller.
#[tactic(auto, unfolding(crate::specs::Reading::lab_from, crate::specs::Reading::checked))]
fn check_parts(
    alloc: Global,
    teacher: &Account,
    students: Vec<Account>,
    nodes: &[RawNode],
    links: &[(i64, i64)],
    bounds: RawLimits,
) -> Result<Found, LabFault>
    ensures { Gives is_lab_memory (found_view teacher.now nodes.now) result (lab_from (record {
      events = bounds.events;
      sessions = bounds.sessions;
      teacher = account_view teacher.now;
      students = map account_view students.items;
      nodes = map node_view nodes.now;
      links = links.now;
    })) }
{
    let ids = identify(alloc, nodes)?;
    let students = enrol(alloc, teacher, students)?;
    check_owners(&students, nodes)?;
    let neighbours = neighbours(alloc, &ids, nodes, links)?;
    pass_unless(pointers_fault(links, nodes))?;
    let (events, sessions) = check_limits(bounds, student_count(&students))?;
    Ok(Found {
        ids,
        students,
        neighbours,
        events,
        sessions,
    })
}

/// Returns the table of the nodes' identifiers. Returns `BothOwners` for the first node that has both keys `owner` and
/// `owners`, or else `Id` with the error that `IdTable::new` returns for the identifiers, if any.
#[tactic(auto, unfolding(crate::specs::Reading::identified))]
fn identify(alloc: Global, nodes: &[RawNode]) -> Result<IdTable, LabFault>
    ensures tests { Gives is_lab_memory (λ _. tt {0}) result (identified (map node_view nodes.now)) }
    ensures table { IfOk result (λ ids. ids ≡ in_order (file_ids (map node_view nodes.now))) }
{
    pass_unless(both_fault(nodes))?;
    id_table(alloc, nodes)
}

/// Returns the map of the students. Returns `Name` for the first participant whose name or key isn't well-formed, or
/// else `NameTwice` for the first who has the name of an earlier one. The teacher comes before the students.
#[tactic(auto, unfolding(crate::specs::Reading::enrolled))]
fn enrol(
    alloc: Global,
    teacher: &Account,
    students: Vec<Account>,
) -> Result<IndexMap<String, String>, LabFault>
    ensures tests { Gives is_lab_memory (λ _. tt {0}) result
        (enrolled (account_view teacher.now) (map account_view students.items)) }
    ensures students { IfOk result
        (λ m. map entry_account m.entries ≡ map account_view students.items) }
{
    pass_unless(forms_fault(teacher, &students))?;
    students_map(alloc, teacher, students)
}

/// Checks that all owners are students, and that the two owners of a node are different students. Returns `NoOwner` for
/// the first node with an owner who isn't a student, or else `OwnerTwice` for the first node whose two owners are the
/// same student.
#[tactic(auto, unfolding(crate::specs::Reading::owned))]
fn check_owners(students: &IndexMap<String, String>, nodes: &[RawNode]) -> Result<(), LabFault>
    ensures { Gives is_lab_memory (λ u. u) result
        (owned (map entry_account students.now.entries) (map node_view nodes.now)) }
{
    pass_unless(no_owner_fault(students, nodes))?;
    pass_unless(owner_twice_fault(nodes))
}

/// Returns how many students a file has. `students.len()` returns the same number; this function has the contract that
/// the proofs of its callers need.
#[tactic(auto, using(crate::proofs::RawLemmas::mapped_lengths))]
fn student_count(students: &IndexMap<String, String>) -> usize
    ensures { result ≡ length (map entry_account students.now.entries) }
{
    students.len()
}

/// Returns `Err` with the error in `fault`, or `Ok(())` if `fault` is `None`. With `?`, the caller returns that error.
pub(crate) fn pass_unless(fault: Option<LabFault>) -> Result<(), LabFault>
    ensures { Gives is_lab_memory (λ u. u) result (pass_unless fault) }
{
    match fault {
        Some(fault) => Err(fault),
        None => Ok(()),
    }
}

/// Returns `BothOwners` for the first node that has both keys `owner` and `owners`, or `None` if no node has both.
#[tactic(auto, using(crate::proofs::RawLemmas::position_of_map), unfolding(crate::specs::Reading::both_fault))]
fn both_fault(nodes: &[RawNode]) -> Option<LabFault>
    ensures { result ≡ both_fault (map node_view nodes.now) }
{
    first_with_both(nodes).map(LabFault::BothOwners)
}

/// Returns the index of the first node that has both keys `owner` and `owners`, or `None` if no node has both.
fn first_with_both(nodes: &[RawNode]) -> Option<usize>
    ensures { result ≡ position (λ node. node.both) nodes.now }
{
    nodes.iter().position(|node| node.both)
}

/// Returns the table of the nodes' identifiers, or `Id` with the error that `IdTable::new` returns for them. Returns
/// `Memory` if memory runs out.
#[tactic(auto, using(crate::proofs::RawLemmas::map_of_map), unfolding(crate::specs::Reading::ids_fault))]
fn id_table(alloc: Global, nodes: &[RawNode]) -> Result<IdTable, LabFault>
    ensures tests { Gives is_lab_memory (λ _. tt {0}) result
        (pass_unless (ids_fault (map node_view nodes.now))) }
    ensures table { IfOk result (λ ids. ids ≡ in_order (file_ids (map node_view nodes.now))) }
{
    let ids = file_ids(alloc, nodes)?;
    IdTable::new(alloc, &ids).map_err(fault_of_ids)
}

/// Turns an error of identifiers into one of a lab: `IdFault::Memory` into `LabFault::Memory`, and any other into
/// `LabFault::Id`.
fn fault_of_ids(fault: IdFault) -> LabFault
    ensures { result ≡ id_fault_as fault }
{
    match fault {
        IdFault::Memory => LabFault::Memory,
        _ => LabFault::Id(fault),
    }
}

/// Returns the nodes' identifiers, in the file's order, with 0 in place of a negative one. Returns `AllocError` if
/// memory runs out.
fn file_ids(alloc: Global, nodes: &[RawNode]) -> Result<Vec<u64>, AllocError>
    ensures { IfOk result (λ ids. ids.items ≡ map (λ node. number_of node.id) nodes.now) }
{
    nodes.iter().map(|node| number_of(node.id)).collect(alloc)
}

/// Returns `Name` for the first participant whose name or key isn't well-formed, or `None` if all are well-formed. The
/// teacher comes before the students.
#[tactic(auto, unfolding(crate::specs::Reading::forms_fault))]
fn forms_fault(teacher: &Account, students: &[Account]) -> Option<LabFault>
    ensures { result ≡ forms_fault (account_view teacher.now ∷ map account_view students.now) }
{
    first_malformed(teacher, students).map(LabFault::Name)
}

/// Returns `NoOwner` for the first node with an owner who isn't a student, or `None` if all owners are students.
#[tactic(auto, using(crate::proofs::RawLemmas::position_of_map), unfolding(crate::specs::Reading::no_owner_fault))]
fn no_owner_fault(students: &IndexMap<String, String>, nodes: &[RawNode]) -> Option<LabFault>
    ensures { result ≡
        no_owner_fault (map entry_account students.now.entries) (map node_view nodes.now) }
{
    first_without_owner(students, nodes).map(LabFault::NoOwner)
}

/// Returns `OwnerTwice` for the first node whose two owners are the same student, or `None` if there is no such node.
#[tactic(auto, using(crate::proofs::RawLemmas::position_of_map), unfolding(crate::specs::Reading::owner_twice_fault))]
fn owner_twice_fault(nodes: &[RawNode]) -> Option<LabFault>
    ensures { result ≡ owner_twice_fault (map node_view nodes.now) }
{
    first_with_owner_twice(nodes).map(LabFault::OwnerTwice)
}

/// Returns the index of the first node with an owner who isn't a student, or `None` if all owners are students.
fn first_without_owner(students: &IndexMap<String, String>, nodes: &[RawNode]) -> Option<usize>
    ensures { result ≡ position
        (λ node. lacks_owner (map entry_account students.now.entries) (node_view node)) nodes.now }
{
    nodes.iter().position(|node| lacks_owner(students, node))
}

/// Returns whether some owner of a node isn't a student.
#[tactic(auto, using(crate::proofs::RawLemmas::list_any_of_map))]
fn lacks_owner(students: &IndexMap<String, String>, node: &RawNode) -> bool
    ensures { result ≡ lacks_owner (map entry_account students.now.entries) (node_view node.now) }
{
    lacks_student(students, &node.owners)
}

/// Returns whether `names` has a name that no student has.
fn lacks_student(students: &IndexMap<String, String>, names: &[String]) -> bool
    ensures { result ≡ list_any (λ name. not (list_any (has_name (string_bytes name))
        (map entry_account students.now.entries))) names.now }
{
    names.iter().any(|name| !is_students_name(students, name))
}

/// Returns whether some student has the name.
fn is_students_name(students: &IndexMap<String, String>, name: &String) -> bool
    ensures { result ≡ list_any (has_name (string_bytes name.now))
        (map entry_account students.now.entries) }
{
    students.contains_key(name.as_str())
}

/// Returns the index of the first node whose two owners are the same student, or `None` if there is no such node.
fn first_with_owner_twice(nodes: &[RawNode]) -> Option<usize>
    ensures { result ≡ position (λ node. are_one_twice (node_view node).owners) nodes.now }
{
    nodes.iter().position(|node| are_one_twice(&node.owners))
}

/// Returns whether `names` has exactly two names, and they are equal.
fn are_one_twice(names: &[String]) -> bool
    ensures { result ≡ are_one_twice (map string_bytes names.now) }
{
    names.len() == 2 && names[0] == names[1]
}

/// Returns the number, if it is from 1 to `greatest`. Otherwise returns `Limit(key)`; `key` is the key under which the
/// number was found.
fn check_range(greatest: u64, number: i64, key: Key) -> Result<u64, LabFault>
    ensures test { Gives is_lab_memory (λ _. tt {0}) result
        (need (is_within greatest number) (Limit key)) }
    ensures number { IfOk result (λ n. n ≡ number_of number) }
    ensures few { IfOk result (λ n. n ≤ greatest) }
{
    let number = number_of(number);
    if 0 < number && number <= greatest {
        Ok(number)
    } else {
        Err(LabFault::Limit(key))
    }
}

/// Returns how many events (first) and sessions (second) the file allows. Returns `Limit` for the first number that is
/// out of its range: events from 1 to 100000, then sessions from 1 to 16, then at most 256 students. `students` is the
/// number of students.
#[tactic(auto, unfolding(crate::specs::Reading::limited))]
fn check_limits(bounds: RawLimits, students: usize) -> Result<(u64, u8), LabFault>
    ensures tests { Gives is_lab_memory (λ _. tt {0}) result
        (limited bounds.events bounds.sessions students) }
    ensures events { IfOk result (λ e. e.0 ≡ number_of bounds.events) }
    ensures sessions { IfOk result (λ e. e.1 ≡ number_of bounds.sessions) }
{
    let events = check_range(MAX_EVENTS, bounds.events, Key::Events)?;
    let sessions = check_range(MAX_SESSIONS, bounds.sessions, Key::Sessions)?;
    if students as u64 <= MAX_STUDENTS {
        Ok((events, sessions as u8))
    } else {
        Err(LabFault::Limit(Key::Student))
    }
}

/// Returns `BadPointer` for the first node that points at a node that it isn't linked to, or `None` if there is no such
/// node.
#[tactic(auto, using(crate::proofs::RawLemmas::position_of_map), unfolding(crate::specs::Reading::pointers_fault))]
fn pointers_fault(links: &[(i64, i64)], nodes: &[RawNode]) -> Option<LabFault>
    ensures { result ≡ pointers_fault links.now (map node_view nodes.now) }
{
    first_at_unlinked(links, nodes).map(LabFault::BadPointer)
}

/// Returns the index of the first node that points at a node that it isn't linked to, or `None` if there is no such
/// node.
fn first_at_unlinked(links: &[(i64, i64)], nodes: &[RawNode]) -> Option<usize>
    ensures { result ≡ position (λ node. points_at_unlinked links.now (node_view node)) nodes.now }
{
    nodes
        .iter()
        .position(|node| points_at_unlinked(links, node))
}

/// Returns whether the node points at some node, and isn't linked to it. Returns `false` if its p is left out.
fn points_at_unlinked(links: &[(i64, i64)], node: &RawNode) -> bool
    ensures { result ≡ points_at_unlinked links.now (node_view node.now) }
{
    node.p.is_some_and(|p| !is_linked(links, node.id, p))
}

/// Returns whether some link joins the nodes with the identifiers `a` and `b`, in either order.
fn is_linked(links: &[(i64, i64)], a: i64, b: i64) -> bool
    ensures { result ≡ is_linked links.now a b }
{
    links.iter().any(|link| joins(a, b, *link))
}

/// Returns whether a link has the ends `a` and `b`, in either order.
fn joins(a: i64, b: i64, link: (i64, i64)) -> bool
    ensures { result ≡ joins a b link }
{
    has_ends(link, a, b) || has_ends(link, b, a)
}

/// Returns whether the first end of a link is `first`, and the second one `second`.
fn has_ends(link: (i64, i64), first: i64, second: i64) -> bool
    ensures { result ≡ (int_eq link.0 first && int_eq link.1 second) }
{
    link.0 == first && link.1 == second
}
