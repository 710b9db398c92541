//! Laws of the lab file. Each is the contract of a function that does nothing.
//!
//! The rank of a node is its index in the rising order of identifiers. The roster has the teacher, the students, and
//! the owners of each node. A `RawSpec` is the contents of a file; `lab_fault` returns its first error, and `lab_in`
//! its lab.
ghost use Rattle.std.specs.Prelude.{◌≡◌, ◌≢◌, ◌↔◌, ℕ, ℤ, pos, ◌<◌, ◌≤◌, List, length, true, All, Contains, Some, None, Ok, Err, slice_get, slice_index};
ghost use Rattle.mml_ids.specs.Ids.{IsTable};
ghost use Rattle.mml_ids.specs.declared.id_table.IdFault.TheVariants as id;
ghost use Rattle.mml_rules.specs.Network.{configuration_of};
ghost use Rattle.mml_lab.specs.declared.who.Who.{Who};
ghost use Rattle.mml_lab.specs.declared.lab_fault.LabFault.TheVariants as fault;
ghost use Rattle.mml_lab.specs.Rosters.{Account, owns, owners_of, name_of};
ghost use Rattle.mml_lab_file.specs.Shape.{NodeSpec, RawSpec};
ghost use Rattle.mml_lab.specs.Labs.{LabValue, IsLab, link_count};
ghost use Rattle.mml_lab_file.specs.Reading.{lab_fault, lab_in, lab_of, linked, name_twice};
ghost use Rattle.mml_lab_file.specs.LabMeaning.{Joins, HasLink, HasNode, IsNodeOf, IsLabOfFile, JoinNodes, IsLinkAgain, IsFirstLinkAgain, id_at};
ghost use Rattle.mml_lab_file.specs.LabMeaning.{IsFirstAgain, AreDistinctBelow};

/// The check of names finds an error exactly if some name occurs twice. The error has the index of the first account
/// whose name an earlier account has.
pub fn name_twice_is_the_first()
    ensures fault { (accounts : List Account) (k : ℕ) →
        (name_twice accounts ≡ Some (fault.NameTwice k)) ↔ IsFirstAgain accounts k }
    ensures none { (accounts : List Account) →
        (name_twice accounts ≡ None) ↔ AreDistinctBelow accounts (length accounts) }
{}

/// Each link of a file without an error joins two different nodes, and no two links join the same two nodes.
pub fn links_join_two_nodes()
    ensures nodes { (raw : RawSpec) → lab_fault raw ≡ None →
        All (λ link. HasNode raw link.0 × HasNode raw link.1) raw.links }
    ensures different { (raw : RawSpec) → lab_fault raw ≡ None →
        All (λ link. link.0 ≢ link.1) raw.links }
    ensures once { (raw : RawSpec) (i j : ℕ) (link again : ℤ × ℤ) → lab_fault raw ≡ None → i < j →
        slice_get raw.links i ≡ Some link → slice_get raw.links j ≡ Some again →
        ¬ Joins again.0 again.1 link }
{}

/// If each link joins two different nodes, the check of links finds an error exactly if some link occurs twice. The
/// error has the index of the first link that joins the same nodes as an earlier one. If the first error of a file is
/// `LinkTwice`, its index is also that of the first such link.
pub fn link_twice_is_the_first()
    ensures fault { (raw : RawSpec) (k : ℕ) →
        (linked raw.nodes raw.links ≡ Err (fault.LinkTwice k))
        ↔ (JoinNodes raw × IsFirstLinkAgain raw.links k) }
    ensures none { (raw : RawSpec) →
        (linked raw.nodes raw.links ≡ Ok tt)
        ↔ (JoinNodes raw × ((k : ℕ) → ¬ IsLinkAgain raw.links k)) }
    ensures told { (raw : RawSpec) (k : ℕ) →
        lab_fault raw ≡ Some (fault.LinkTwice k) → IsFirstLinkAgain raw.links k }
{}

/// The identifiers of a lab are those of the file's nodes, in rising order.
pub fn identifiers_are_the_nodes()
    ensures table { (raw : RawSpec) → lab_fault raw ≡ None → IsTable (lab_in raw).ids }
    ensures same { (raw : RawSpec) (id : ℕ) → lab_fault raw ≡ None →
        Contains (lab_in raw).ids id ↔ HasNode raw (pos id) }
{}

/// Two nodes are linked exactly if the file has a link with their identifiers as ends.
pub fn links_are_those_of_the_file()
    ensures { (raw : RawSpec) (i j : ℕ) → lab_fault raw ≡ None →
        i < length (lab_in raw).ids → j < length (lab_in raw).ids →
        ((configuration_of (lab_in raw).network).linked i j ≡ true)
        ↔ HasLink raw (pos (id_at (lab_in raw) i)) (pos (id_at (lab_in raw) j)) }
{}

/// The network of a file without an error has as many links as the file.
#[tactic(auto, using(crate::proofs::LabFaultLemmas::faultless, crate::proofs::LinkCountLemmas::links_counted))]
pub fn links_are_counted()
    ensures { (raw : RawSpec) → lab_fault raw ≡ None →
        link_count (lab_in raw).network ≡ length raw.links }
{}

/// A node's registers are those of the file. m is as in the file, and p is null if the file leaves it out. Otherwise p
/// is the rank of the node that the file names, and this node is a neighbour.
pub fn registers_are_those_of_the_file()
    ensures m { (raw : RawSpec) (i : ℕ) (node : NodeSpec) → lab_fault raw ≡ None →
        IsNodeOf raw (lab_in raw) i node →
        (configuration_of (lab_in raw).network).m i ≡ node.m }
    ensures null { (raw : RawSpec) (i : ℕ) (node : NodeSpec) → lab_fault raw ≡ None →
        IsNodeOf raw (lab_in raw) i node → node.p ≡ None →
        (configuration_of (lab_in raw).network).p i ≡ None }
    ensures p { (raw : RawSpec) (i : ℕ) (node : NodeSpec) (z : ℤ) → lab_fault raw ≡ None →
        IsNodeOf raw (lab_in raw) i node → node.p ≡ Some z →
        (j : ℕ) × ((configuration_of (lab_in raw).network).p i ≡ Some j)
        × (z ≡ pos (id_at (lab_in raw) j))
        × ((configuration_of (lab_in raw).network).linked i j ≡ true) }
{}

/// A student owns a node exactly if the file names the student as one of its owners.
pub fn owners_are_those_of_the_file()
    ensures { (raw : RawSpec) (i s : ℕ) (node : NodeSpec) → lab_fault raw ≡ None →
        IsNodeOf raw (lab_in raw) i node → s < length raw.students →
        (owns (lab_in raw).roster (Who.Student s) i ≡ true)
        ↔ Contains node.owners (name_of (lab_in raw).roster (Who.Student s)) }
{}

/// Each node of a lab that was read from bytes has one owner or two different owners.
#[tactic(auto, using(crate::proofs::OwnersLemmas::one_or_two, crate::proofs::OwnersLemmas::owners_differ))]
pub fn labs_have_owners()
    ensures one_or_two { (bytes : List ℕ) (lab : LabValue) (i : ℕ) → lab_of bytes ≡ Ok lab →
        i < length lab.ids →
        (0 < length (owners_of lab.roster i)) × (length (owners_of lab.roster i) ≤ 2) }
    ensures differ { (bytes : List ℕ) (lab : LabValue) (i j k : ℕ) → lab_of bytes ≡ Ok lab →
        i < length lab.ids → j < k → k < length (owners_of lab.roster i) →
        slice_index (owners_of lab.roster i) j ≢ slice_index (owners_of lab.roster i) k }
{}

/// Every lab that is read from bytes is valid (`IsLab`). Its roster and its network are valid and have as many nodes as
/// there are identifiers, and no limit is exceeded.
pub fn labs_are_lawful()
    ensures { (bytes : List ℕ) (lab : LabValue) → lab_of bytes ≡ Ok lab → IsLab lab }
{}

/// Bytes are read as a lab exactly if they are those of a file without an error, and the lab is the one that the file
/// describes.
pub fn labs_are_those_of_files()
    ensures { (bytes : List ℕ) (lab : LabValue) →
        (lab_of bytes ≡ Ok lab) ↔ ((raw : RawSpec) × IsLabOfFile bytes raw lab) }
{}

/// By the definitions, no file has the error `Memory`, neither as an error of a lab nor as one of its identifiers.
/// Whether memory runs out doesn't depend on the file alone.
#[tactic(auto, using(crate::proofs::LabOfLemmas::no_memory_of_ids, crate::proofs::LabOfLemmas::no_memory, crate::proofs::NoMemoryLemmas::spells_no_memory, crate::proofs::NoMemoryLemmas::spells_no_memory_of_ids))]
pub fn want_of_memory_is_no_fault()
    ensures identifiers { (raw : RawSpec) → lab_fault raw ≢ Some (fault.Id id.Memory) }
    ensures file { (raw : RawSpec) → lab_fault raw ≢ Some fault.Memory }
    ensures bytes { (bytes : List ℕ) → lab_of bytes ≢ Err fault.Memory }
    ensures bytes_of_identifiers { (bytes : List ℕ) → lab_of bytes ≢ Err (fault.Id id.Memory) }
{}
