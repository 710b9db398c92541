//! The contents of a lab file, read from its TOML.
//!
//! The kind of a value is its type in TOML. A `Key` names a key of the file in an error. A function with the parameters
//! `name` and `key` gets one key twice: as a text, and for an error. Each function with the parameter `alloc` returns
//! `LabFault::Memory` if memory runs out. In a contract, `Gives` means that a function returns the result that a
//! definition names, or `Memory` if memory runs out. Values are dropped by calls of `drop` before a function returns,
//! which keeps the proofs short.
ghost use Rattle.std.specs.Prelude.{◌≡◌, map, string_bytes, codes, Some, None, Ok, Err, option_map, ok_or};
ghost use Rattle.mml_ids.specs.Gives.{Gives};
ghost use Rattle.toml.specs.Data.{as_str, as_integer, as_bool, as_table, as_array, get_member};
ghost use Rattle.toml.specs.View.{view, table_view, array_view};
ghost use Rattle.mml_lab_file.specs.Shape.{is_lab_memory, value_under, needed, of_kind, optional_of, optional, names_of, owner_names, each, account_in, student_of};
ghost use Rattle.mml_lab_file.specs.Shape.{node_of, link_of, links_of, teacher_of, students_of, nodes_of, raw_of, two_of, spelled};
ghost use Rattle.mml_lab.specs.AccountView.{account_view};
ghost use Rattle.mml_lab_file.specs.inside.Raw.{node_view, raw_view};

use mml_lab::{Account, Key, LabFault, MAX_OWNERS};
use std::alloc::Global;
use toml::value::Array;
use toml::{Table, Value};

/// A node as the file describes it: its identifier, the names of its owners, and its registers.
#[derive(Drop)]
pub struct RawNode {
    /// The identifier, which may be out of its range.
    pub id: i64,
    pub owners: Vec<String>,
    /// Whether the node has both keys, `owner` and `owners`.
    pub both: bool,
    /// The identifier under the key `p`, or `None` if the key is left out.
    pub p: Option<i64>,
    /// The truth value under the key `m`, or false if the key is left out.
    pub m: bool,
}

/// How many events and connections a file allows. The numbers may be out of their ranges.
#[derive(Clone, Copy)]
pub struct RawLimits {
    pub events: i64,
    pub sessions: i64,
}

/// The contents of a file, before its values are compared with one another.
#[derive(Drop)]
pub struct RawLab {
    pub bounds: RawLimits,
    pub teacher: Account,
    pub students: Vec<Account>,
    pub nodes: Vec<RawNode>,
    /// For each link the identifiers of its two ends.
    pub links: Vec<(i64, i64)>,
}

/// Returns the value under the key `name` of a table, or `None` if the table doesn't have the key. This is
/// `Table::get`, with the contract that the proofs of its callers need.
#[tactic(auto, using(toml::proofs::Views::table_get))]
fn find<'a>(table: &'a Table, name: &str) -> Option<&'a Value>
    ensures { option_map (λ v. view v.now) result ≡ get_member name.now (table_view table.now) }
{
    table.get(name)
}

/// Returns the value under the key `name` of a table. Returns `Missing(key)` if the table doesn't have the key.
fn value_at<'a>(table: &'a Table, name: &str, key: Key) -> Result<&'a Value, LabFault>
    ensures { Gives is_lab_memory (λ v. view v.now) result (value_under key name.now (table_view table.now)) }
{
    find(table, name).ok_or(LabFault::Missing(key))
}

/// Returns the integer in a value. Returns `WrongKind(key)` if the value is no integer; `key` is the key under which it
/// was found.
fn integer(value: &Value, key: Key) -> Result<i64, LabFault>
    ensures { Gives is_lab_memory (λ z. z) result (of_kind key as_integer (view value.now)) }
{
    value.as_integer().ok_or(LabFault::WrongKind(key))
}

/// Returns the truth value in a value. Returns `WrongKind(key)` if the value is no truth value; `key` is the key under
/// which it was found.
fn boolean(value: &Value, key: Key) -> Result<bool, LabFault>
    ensures { Gives is_lab_memory (λ b. b) result (of_kind key as_bool (view value.now)) }
{
    value.as_bool().ok_or(LabFault::WrongKind(key))
}

/// Returns a copy of the string in a value. Returns `WrongKind(key)` if the value is no string; `key` is the key under
/// which it was found. Returns `Memory` if memory runs out.
fn text(alloc: Global, value: &Value, key: Key) -> Result<String, LabFault>
    ensures { Gives is_lab_memory string_bytes result (of_kind key as_str (view value.now)) }
{
    let text = value.as_str().ok_or(LabFault::WrongKind(key))?;
    Ok(String::from_str(alloc, text)?)
}

/// Returns the table in a value. Returns `WrongKind(key)` if the value is no table; `key` is the key under which it was
/// found.
fn table_of(value: &Value, key: Key) -> Result<&Table, LabFault>
    ensures { Gives is_lab_memory (λ t. table_view t.now) result (of_kind key as_table (view value.now)) }
{
    value.as_table().ok_or(LabFault::WrongKind(key))
}

/// Returns the array in a value. Returns `WrongKind(key)` if the value is no array; `key` is the key under which it was
/// found.
fn array_of(value: &Value, key: Key) -> Result<&Array, LabFault>
    ensures { Gives is_lab_memory (λ t. array_view t.now) result (of_kind key as_array (view value.now)) }
{
    value.as_array().ok_or(LabFault::WrongKind(key))
}

/// Returns the integer under the key `name` of a table. Returns `Missing(key)` if the table doesn't have the key, and
/// `WrongKind(key)` if its value is of another kind.
fn integer_at(table: &Table, name: &str, key: Key) -> Result<i64, LabFault>
    ensures { Gives is_lab_memory (λ z. z) result
        (needed key name.now as_integer (table_view table.now)) }
{
    integer(value_at(table, name, key)?, key)
}

/// Returns the string under the key `name` of a table. Returns `Missing(key)` if the table doesn't have the key,
/// `WrongKind(key)` if its value is of another kind, and `Memory` if memory runs out.
fn text_at(alloc: Global, table: &Table, name: &str, key: Key) -> Result<String, LabFault>
    ensures { Gives is_lab_memory string_bytes result
        (needed key name.now as_str (table_view table.now)) }
{
    text(alloc, value_at(table, name, key)?, key)
}

/// Returns the table under the key `name` of a table. Returns `Missing(key)` if the table doesn't have the key, and
/// `WrongKind(key)` if its value is of another kind.
fn table_at<'a>(table: &'a Table, name: &str, key: Key) -> Result<&'a Table, LabFault>
    ensures { Gives is_lab_memory (λ t. table_view t.now) result
        (needed key name.now as_table (table_view table.now)) }
{
    table_of(value_at(table, name, key)?, key)
}

/// Returns the array under the key `name` of a table. Returns `Missing(key)` if the table doesn't have the key, and
/// `WrongKind(key)` if its value is of another kind.
fn array_at<'a>(table: &'a Table, name: &str, key: Key) -> Result<&'a Array, LabFault>
    ensures { Gives is_lab_memory (λ t. array_view t.now) result
        (needed key name.now as_array (table_view table.now)) }
{
    array_of(value_at(table, name, key)?, key)
}

/// Returns the account in the table of the teacher or of a student: the strings under the keys `name` and `key`.
/// Returns `Missing` or `WrongKind` for the first of them that is missing or isn't a string. This error has
/// `key_of_name` for the key `name`, and `key_of_key` for the key `key`.
#[tactic(auto, unfolding(crate::specs::Shape::account_in))]
fn account_at(
    alloc: Global,
    table: &Table,
    key_of_name: Key,
    key_of_key: Key,
) -> Result<Account, LabFault>
    ensures { Gives is_lab_memory account_view result
        (account_in key_of_name key_of_key (table_view table.now)) }
{
    let name = text_at(alloc, table, "name", key_of_name)?;
    let key = text_at(alloc, table, "key", key_of_key)?;
    Ok(Account { name, key })
}

/// Returns the account that an element of the file's array `student` describes: the student's name and key. Returns
/// `WrongKind(Student)` if the element isn't a table, and otherwise the error of its name or key if there is one.
#[tactic(auto, unfolding(crate::specs::Shape::student_of))]
fn student(alloc: Global, value: &Value) -> Result<Account, LabFault>
    ensures { Gives is_lab_memory account_view result (student_of (view value.now)) }
{
    let table = table_of(value, Key::Student)?;
    account_at(alloc, table, Key::StudentName, Key::StudentKey)
}

/// Returns the accounts of all elements of the array `student`, in order, or the error of the first element that has
/// one.
fn students(alloc: Global, list: &Array) -> Result<Vec<Account>, LabFault>
    ensures { Gives is_lab_memory (λ v. map account_view v.items) result
        (each student_of (array_view list.now)) }
{
    let mut found = Vec::new(alloc);
    for value in list {
        found.push(student(alloc, value)?)?;
    }
    Ok(found)
}

/// Returns the integer under the key `name` of a table, or `None` if the table doesn't have the key. Returns
/// `WrongKind(key)` if its value is of another kind.
fn optional_integer(table: &Table, name: &str, key: Key) -> Result<Option<i64>, LabFault>
    ensures { Gives is_lab_memory (λ z. z) result
        (optional_of key as_integer (get_member name.now (table_view table.now))) }
{
    match find(table, name) {
        Some(v) => Ok(Some(integer(v, key)?)),
        None => Ok(None),
    }
}

/// Returns the truth value under the key `name` of a table, or `None` if the table doesn't have the key. Returns
/// `WrongKind(key)` if its value is of another kind.
fn optional_boolean(table: &Table, name: &str, key: Key) -> Result<Option<bool>, LabFault>
    ensures { Gives is_lab_memory (λ z. z) result
        (optional_of key as_bool (get_member name.now (table_view table.now))) }
{
    match find(table, name) {
        Some(v) => Ok(Some(boolean(v, key)?)),
        None => Ok(None),
    }
}

/// Returns the string under the key `name` of a table, or `None` if the table doesn't have the key. Returns
/// `WrongKind(key)` if its value is of another kind, and `Memory` if memory runs out.
fn optional_text(
    alloc: Global,
    table: &Table,
    name: &str,
    key: Key,
) -> Result<Option<String>, LabFault>
    ensures { Gives is_lab_memory (option_map string_bytes) result
        (optional_of key as_str (get_member name.now (table_view table.now))) }
{
    match find(table, name) {
        Some(v) => Ok(Some(text(alloc, v, key)?)),
        None => Ok(None),
    }
}

/// Returns the strings of an array, in order. Returns `WrongKind(key)` if one of its values is no string, and `Memory`
/// if memory runs out; `key` is the key under which the array was found.
fn texts(alloc: Global, list: &Array, key: Key) -> Result<Vec<String>, LabFault>
    ensures { Gives is_lab_memory (λ v. map string_bytes v.items) result
        (each (of_kind key as_str) (array_view list.now)) }
{
    let mut found = Vec::new(alloc);
    for value in list {
        found.push(text(alloc, value, key)?)?;
    }
    Ok(found)
}

/// Returns the names in the value of the key `owners`. Returns `WrongKind(NodeOwners)` if the value isn't an array of
/// one or two strings.
#[tactic(auto, unfolding(crate::specs::Shape::names_of))]
fn names(alloc: Global, value: &Value) -> Result<Vec<String>, LabFault>
    ensures { Gives is_lab_memory (λ v. map string_bytes v.items) result (names_of (view value.now)) }
{
    let names = texts(alloc, array_of(value, Key::NodeOwners)?, Key::NodeOwners)?;
    if names.is_empty() || names.len() as u64 > MAX_OWNERS {
        return Err(LabFault::WrongKind(Key::NodeOwners));
    }
    Ok(names)
}

/// Returns the names under the key `owners` of a node's table, or `None` if the table doesn't have the key. Returns
/// `WrongKind(NodeOwners)` if the value isn't an array of one or two strings.
fn optional_names(alloc: Global, table: &Table) -> Result<Option<Vec<String>>, LabFault>
    ensures { Gives is_lab_memory (option_map (λ v. map string_bytes v.items)) result
        (optional names_of (get_member (codes "owners") (table_view table.now))) }
{
    match find(table, "owners") {
        Some(v) => Ok(Some(names(alloc, v)?)),
        None => Ok(None),
    }
}

/// Returns the names of a node's owners. `owner` is the value of the key `owner`, and `owners` that of the key
/// `owners`; each is `None` if its key is left out. If there are both, returns `owners`; a later check refuses such a
/// node. Returns `Missing(NodeOwner)` if both are left out.
fn owner_names(
    alloc: Global,
    owner: Option<String>,
    owners: Option<Vec<String>>,
) -> Result<Vec<String>, LabFault>
    ensures { Gives is_lab_memory (λ v. map string_bytes v.items) result (ok_or
        (owner_names (option_map string_bytes owner) (option_map (λ v. map string_bytes v.items) owners))
        (LabFault.Missing Key.NodeOwner)) }
{
    if let Some(names) = owners {
        return Ok(names);
    }
    let name = owner.ok_or(LabFault::Missing(Key::NodeOwner))?;
    let mut names = Vec::new(alloc);
    names.push(name)?;
    Ok(names)
}

/// Returns the node that an element of the array `node` describes. Without the key `p`, p is null, and without `m`, m
/// is false. Returns `WrongKind(Node)` if the element isn't a table. Otherwise reads the keys `id`, `owner`, `owners`,
/// `p` and `m` in this order, and returns the first error. The error is `WrongKind` for a value of another kind. It is
/// `Missing(NodeId)` if `id` is left out, and `Missing(NodeOwner)` if `owner` and `owners` are both left out. If
/// neither is left out, the field `both` becomes true, which a later check refuses.
#[tactic(auto, unfolding(crate::specs::Shape::node_of))]
fn node(alloc: Global, value: &Value) -> Result<RawNode, LabFault>
    ensures { Gives is_lab_memory node_view result (node_of (view value.now)) }
{
    let table = table_of(value, Key::Node)?;
    let id = integer_at(table, "id", Key::NodeId)?;
    let owner = optional_text(alloc, table, "owner", Key::NodeOwner)?;
    let owners = optional_names(alloc, table)?;
    let both = owner.is_some() && owners.is_some();
    let owners = owner_names(alloc, owner, owners)?;
    let p = optional_integer(table, "p", Key::NodeP)?;
    let m = optional_boolean(table, "m", Key::NodeM)?.unwrap_or(false);
    Ok(RawNode {
        id,
        owners,
        both,
        p,
        m,
    })
}

/// Returns the nodes that the elements of the array `node` describe, in order, or the error of the first element that
/// has one.
fn nodes(alloc: Global, list: &Array) -> Result<Vec<RawNode>, LabFault>
    ensures { Gives is_lab_memory (λ v. map node_view v.items) result
        (each node_of (array_view list.now)) }
{
    let mut found = Vec::new(alloc);
    for value in list {
        found.push(node(alloc, value)?)?;
    }
    Ok(found)
}

/// Returns the two values of an array that describes a link. Returns `WrongKind(Link)` if the array doesn't have
/// exactly two values.
#[tactic(auto, using(crate::proofs::SpelledLemmas::two_none))]
fn two_of(list: &Array) -> Result<(&Value, &Value), LabFault>
    ensures { Gives is_lab_memory (λ e. (view e.0.now, view e.1.now)) result
        (ok_or (two_of (array_view list.now)) (LabFault.WrongKind Key.Link)) }
{
    if list.len() != 2 {
        return Err(LabFault::WrongKind(Key::Link));
    }
    Ok((&list[0], &list[1]))
}

/// Returns the identifiers of the two ends of a link. Returns `WrongKind(Link)` if the value isn't an array of two
/// integers.
#[tactic(auto, unfolding(crate::specs::Shape::link_of))]
fn link_ends(value: &Value) -> Result<(i64, i64), LabFault>
    ensures { Gives is_lab_memory (λ e. e) result (link_of (view value.now)) }
{
    let (a, b) = two_of(array_of(value, Key::Link)?)?;
    let a = integer(a, Key::Link)?;
    let b = integer(b, Key::Link)?;
    Ok((a, b))
}

/// Returns the links that the elements of the array `links` describe, in order, each by the identifiers of its two
/// ends. Returns `WrongKind(Link)` if an element isn't an array of two integers.
fn links(alloc: Global, list: &Array) -> Result<Vec<(i64, i64)>, LabFault>
    ensures { Gives is_lab_memory (λ v. v.items) result (each link_of (array_view list.now)) }
{
    let mut found = Vec::new(alloc);
    for value in list {
        found.push(link_ends(value)?)?;
    }
    Ok(found)
}

/// Returns the links under the key `links` of the file, each by the identifiers of its two ends. Returns no links if
/// the key is left out. Returns `WrongKind(Links)` if the value isn't an array, and `WrongKind(Link)` if an element
/// isn't an array of two integers.
fn links_at(alloc: Global, table: &Table) -> Result<Vec<(i64, i64)>, LabFault>
    ensures { Gives is_lab_memory (λ v. v.items) result
        (links_of (get_member (codes "links") (table_view table.now))) }
{
    match find(table, "links") {
        Some(value) => links(alloc, array_of(value, Key::Links)?),
        None => Ok(Vec::new(alloc)),
    }
}

/// Returns the teacher's name and key, which are in the table `teacher` of the file. Returns `Missing` or `WrongKind`
/// for the first of the keys `teacher`, `name` and `key` that is missing or of another kind.
#[tactic(auto, unfolding(crate::specs::Shape::teacher_of))]
fn teacher_at(alloc: Global, table: &Table) -> Result<Account, LabFault>
    ensures { Gives is_lab_memory account_view result (teacher_of (table_view table.now)) }
{
    let teacher = table_at(table, "teacher", Key::Teacher)?;
    account_at(alloc, teacher, Key::TeacherName, Key::TeacherKey)
}

/// Returns the accounts under the key `student` of the file, in order. Returns `Missing` or `WrongKind` if the key is
/// missing or its value isn't an array, and otherwise the error of the first element that has one.
#[tactic(auto, unfolding(crate::specs::Shape::students_of))]
fn students_at(alloc: Global, table: &Table) -> Result<Vec<Account>, LabFault>
    ensures { Gives is_lab_memory (λ v. map account_view v.items) result (students_of (table_view table.now)) }
{
    students(alloc, array_at(table, "student", Key::Student)?)
}

/// Returns the nodes under the key `node` of the file, in order. Returns `Missing` or `WrongKind` if the key is missing
/// or its value isn't an array, and otherwise the error of the first element that has one.
#[tactic(auto, unfolding(crate::specs::Shape::nodes_of))]
fn nodes_at(alloc: Global, table: &Table) -> Result<Vec<RawNode>, LabFault>
    ensures { Gives is_lab_memory (λ v. map node_view v.items) result (nodes_of (table_view table.now)) }
{
    nodes(alloc, array_at(table, "node", Key::Node)?)
}

/// Returns the contents of the lab file whose TOML is `table`. Reads the keys in the order of `Key`. Returns the error
/// of the first key that is missing though required (`Missing`), or whose value is of another kind (`WrongKind`).
#[tactic(auto, unfolding(crate::specs::Shape::raw_of))]
pub fn read_raw(alloc: Global, table: &Table) -> Result<RawLab, LabFault>
    ensures { Gives is_lab_memory raw_view result (raw_of (table_view table.now)) }
{
    let events = integer_at(table, "events", Key::Events)?;
    let sessions = integer_at(table, "sessions", Key::Sessions)?;
    let teacher = teacher_at(alloc, table)?;
    let students = match students_at(alloc, table) {
        Ok(students) => students,
        Err(fault) => {
            drop(teacher);
            return Err(fault);
        }
    };
    let nodes = match nodes_at(alloc, table) {
        Ok(nodes) => nodes,
        Err(fault) => {
            drop(teacher);
            drop(students);
            return Err(fault);
        }
    };
    match links_at(alloc, table) {
        Ok(links) => Ok(RawLab {
            bounds: RawLimits { events, sessions },
            teacher,
            students,
            nodes,
            links,
        }),
        Err(fault) => {
            drop(teacher);
            drop(students);
            drop(nodes);
            Err(fault)
        }
    }
}

/// Returns the contents of a lab file from its bytes. Returns `NotToml` if the bytes aren't TOML. Otherwise returns the
/// error of `read_raw`, if there is one.
#[tactic(auto, using(crate::proofs::SpelledLemmas::spelled_some, crate::proofs::SpelledLemmas::spelled_none))]
pub fn read_bytes(alloc: Global, bytes: &[u8]) -> Result<RawLab, LabFault>
    ensures { Gives is_lab_memory raw_view result (spelled bytes.now) }
{
    match toml::table_from_slice(alloc, bytes) {
        Ok(table) => read_raw(alloc, &table),
        Err(e) if e.is_memory() => Err(LabFault::Memory),
        Err(_) => Err(LabFault::NotToml),
    }
}
