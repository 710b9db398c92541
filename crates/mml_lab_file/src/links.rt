//! The checks of links, and the neighbours of each node by rank.
//!
//! The rank of a node is its index in the rising order of identifiers. A `RawNode` is a node as the file describes it,
//! and a link is the pair of the identifiers of its ends. Errors have the index of a link in the file's order, from 0.
//! In a contract, `Gives` means that a function returns the result that a definition names, or `Memory`. The clause
//! `tests` of a contract says which error is returned, if any. The clause `rows` says what `Ok` contains. Most
//! functions are small, because each computes one definition, or a part of one, that its contract names.
ghost use Rattle.std.specs.Prelude.{◌≡◌, ◌<◌, ◌==◌, ◌&&◌, ◌||◌, ℕ, None, position, map, length, IfSome, IfOk};
ghost use Rattle.std.specs.List.{list_any};
ghost use Rattle.std.specs.Option.{ForSome};
ghost use Rattle.std.specs.Ordering.{int_eq};
ghost use Rattle.std.specs.FinSet as set;
ghost use Rattle.mml_ids.specs.Gives.{Gives};
ghost use Rattle.mml_ids.specs.Ids.{in_order};
ghost use Rattle.mml_rules.specs.Configuration.{holds};
ghost use Rattle.mml_rules.specs.Network.{neighbours_at};
ghost use Rattle.mml_lab_file.specs.Shape.{is_lab_memory};
ghost use Rattle.mml_lab_file.specs.inside.Raw.{node_view};
ghost use Rattle.mml_lab_file.specs.Reading.{number_of, file_ids, is_node, lacks_end, is_loop, neighbours_of, ends_fault, loops_fault, again_fault, pass_unless, linked};
ghost use Rattle.mml_lab_file.specs.inside.Checks.{rank_at, lacks_rank, are_near};

use crate::checks::{number_of, pass_unless};
use crate::raw_lab::RawNode;
use mml_ids::{IdTable, NodeSet, Rank};
use mml_lab::LabFault;
use std::alloc::Global;

/// Returns the set of neighbours of each node, by rank. `ids` must have the identifiers of the nodes. Returns `LinkEnd`
/// for the first link with an end that isn't a node. If there is no such link, returns `Loop` for the first link from a
/// node to itself. If no link is a loop either, returns `LinkTwice` for the first link that joins the same nodes as a
/// link before it. Returns `Memory` if memory runs out.
#[tactic(auto, using(crate::proofs::ChecksLemmas::all_ranked), unfolding(crate::specs::Reading::linked))]
pub(crate) fn neighbours(
    alloc: Global,
    ids: &IdTable,
    nodes: &[RawNode],
    links: &[(i64, i64)],
) -> Result<Vec<NodeSet>, LabFault>
    requires { ids.now ≡ in_order (file_ids (map node_view nodes.now)) }
    ensures tests { Gives is_lab_memory (λ _. tt {0}) result
        (linked (map node_view nodes.now) links.now) }
    ensures rows { IfOk result (λ rows. rows.items ≡ map (neighbours_of ids.now links.now) ids.now) }
{
    // Called only for its contract, which the proof needs: the identifiers are a table.
    let _count = ids.len();
    pass_unless(ends_fault(nodes, links))?;
    pass_unless(loops_fault(links))?;
    neighbour_rows(alloc, ids, links)
}

/// Returns `LinkEnd` for the first link with an end that isn't a node, or `None` if all ends are nodes.
#[tactic(auto, unfolding(crate::specs::Reading::ends_fault))]
fn ends_fault(nodes: &[RawNode], links: &[(i64, i64)]) -> Option<LabFault>
    ensures { result ≡ ends_fault (map node_view nodes.now) links.now }
{
    first_without_end(nodes, links).map(LabFault::LinkEnd)
}

/// Returns the index of the first link with an end that isn't a node, or `None` if all ends are nodes.
fn first_without_end(nodes: &[RawNode], links: &[(i64, i64)]) -> Option<usize>
    ensures { result ≡ position (lacks_end (map node_view nodes.now)) links.now }
{
    links.iter().position(|link| lacks_end(nodes, *link))
}

/// Returns whether at least one end of a link isn't a node.
fn lacks_end(nodes: &[RawNode], link: (i64, i64)) -> bool
    ensures { result ≡ lacks_end (map node_view nodes.now) link }
{
    let (a, b) = link;
    !(is_node(nodes, a) && is_node(nodes, b))
}

/// Returns whether one of the file's nodes has the identifier `id`. `has_id` returns the same; this function has the
/// contract that the proofs of its callers need.
#[tactic(auto, using(crate::proofs::RawLemmas::list_any_of_map))]
fn is_node(nodes: &[RawNode], id: i64) -> bool
    ensures { result ≡ is_node (map node_view nodes.now) id }
{
    has_id(nodes, id)
}

/// Returns whether one of the nodes has the identifier `id`.
fn has_id(nodes: &[RawNode], id: i64) -> bool
    ensures { result ≡ list_any (λ node. int_eq node.id id) nodes.now }
{
    nodes.iter().any(|node| node.id == id)
}

/// Returns `Loop` for the first link that joins a node to itself, or `None` if there is no such link.
#[tactic(auto, unfolding(crate::specs::Reading::loops_fault))]
fn loops_fault(links: &[(i64, i64)]) -> Option<LabFault>
    ensures { result ≡ loops_fault links.now }
{
    first_loop(links).map(LabFault::Loop)
}

/// Returns the index of the first link that joins a node to itself, or `None` if there is no such link.
fn first_loop(links: &[(i64, i64)]) -> Option<usize>
    ensures { result ≡ position is_loop links.now }
{
    links.iter().position(|link| is_loop(*link))
}

/// Returns whether both ends of a link are the same node.
fn is_loop(link: (i64, i64)) -> bool
    ensures { result ≡ is_loop link }
{
    link.0 == link.1
}

/// Returns the set of neighbours of each node, by rank. `ids` has the identifiers of the nodes, and the ends of all
/// links must be among them. Returns `LinkTwice` for the first link that joins the same nodes as a link before it, and
/// `Memory` if memory runs out.
#[tactic(auto, using(crate::proofs::NeighboursLemmas::no_rows))]
fn neighbour_rows(
    alloc: Global,
    ids: &IdTable,
    links: &[(i64, i64)],
) -> Result<Vec<NodeSet>, LabFault>
    requires { position (lacks_rank ids.now) links.now ≡ None }
    ensures tests { Gives is_lab_memory (λ _. tt {0}) result (pass_unless (again_fault links.now)) }
    ensures rows { IfOk result (λ rows. rows.items ≡ map (neighbours_of ids.now links.now) ids.now) }
{
    let mut rows = vec![in alloc; NodeSet::empty(); ids.len() as usize]?;
    for index in 0..links.len() {
        // A reference is used because the toolchain doesn't copy a value that contains a rank, even if its type is
        // `Copy`.
        let a = &rank_at(ids, links[index].0);
        let b = &rank_at(ids, links[index].1);
        if are_near(&rows, *a, *b) {
            return Err(LabFault::LinkTwice(index));
        }
        join(&mut rows, *a, *b);
    }
    Ok(rows)
}

/// Returns whether `a` and `b` are neighbours in `rows`, which has the neighbours of each node, by rank. Returns
/// `false` if one of them is `None`, which means no node. If `a` is a node, `rows` must have an entry for it.
#[tactic(auto, unfolding(crate::specs::inside::Checks::are_near))]
fn are_near(rows: &[NodeSet], a: Option<Rank>, b: Option<Rank>) -> bool
    requires { ForSome a (λ rank. rank < length rows.now) }
    ensures { result ≡ are_near rows.now a b }
{
    match (a, b) {
        (Some(a), Some(b)) => rows[a.index() as usize].has(b),
        _ => false,
    }
}

/// Returns the rank of the node with the identifier `id`, or `None` if there is no such node.
#[tactic(auto, unfolding(crate::specs::inside::Checks::rank_at))]
pub(crate) fn rank_at(ids: &IdTable, id: i64) -> Option<Rank>
    ensures rank { result ≡ rank_at ids.now id }
    ensures node { IfSome result (λ rank. rank < length ids.now) }
{
    ids.rank_of(number_of(id))
}

/// Makes `a` and `b` neighbours of each other in `rows`, which has the neighbours of each node, by rank. Does nothing
/// if one of them is `None`, which means no node. `rows` must have an entry for each that isn't `None`.
fn join(rows: &mut [NodeSet], a: Option<Rank>, b: Option<Rank>)
    requires a { ForSome a (λ rank. rank < length rows.old) }
    requires b { ForSome b (λ rank. rank < length rows.old) }
    ensures { (i q : ℕ) → set.contains (neighbours_at rows.new i) q
        ≡ (set.contains (neighbours_at rows.old i) q
        || ((holds a i && holds b q) || (holds b i && holds a q))) }
{
    if let Some(a) = a
        && let Some(b) = b
    {
        insert(rows, a, b);
        insert(rows, b, a);
    }
}

/// Adds `neighbour` to the neighbours of `node`. `rows` has the neighbours of each node, by rank, and must have an
/// entry for `node`.
#[tactic(auto, using(mml_lab::proofs::RowLemmas::inserted))]
fn insert(rows: &mut [NodeSet], node: Rank, neighbour: Rank)
    requires { node < length rows.old }
    ensures { (i q : ℕ) → set.contains (neighbours_at rows.new i) q
        ≡ (set.contains (neighbours_at rows.old i) q || (node == i && neighbour == q)) }
{
    let index = node.index() as usize;
    rows[index] = rows[index].with(neighbour);
}
