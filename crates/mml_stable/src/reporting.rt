//! Making a report.
//!
//! A node is privileged if some rule is enabled there. A board is the state of a run after some events. A free node
//! is in no pair of nodes that point at each other. A link is open if both its ends are free. The witness of an open
//! link is a privileged node that the report names for it. The kind of a rule is the rule without the partner that a
//! marriage names. The rank of a node is its index in the rising order of identifiers. A configuration is lawful if
//! each link joins two different nodes in both directions, and pointers lead only to neighbours. A world is lawful if
//! its configuration is, and the guards of all chosen moves hold.
ghost use Rattle.std.specs.Prelude.{◌≡◌, ℕ, ◌<◌, ◌++◌, length, true, IfOk, OnOk};
ghost use Rattle.std.specs.FinSet as set;
ghost use Rattle.mml_ids.specs.Sets.{those_below};
ghost use Rattle.mml_board.specs.World.{configuration};
ghost use Rattle.mml_stable.specs.Reports.{pairs, is_free, free_nodes, privileged_nodes, is_open, open_link, open_links_at, open_links, is_stable};
ghost use Rattle.mml_stable.specs.Reports.{report_of, NamesNodes};
ghost use Rattle.mml_stable.specs.inside.Kinds.{AreKinds};
ghost use Rattle.mml_stable.specs.inside.Rest.{IsFreeFrom};

use crate::certificate::witness;
use crate::kinds::{PLACES, find_kinds, kind_at};
use crate::open_link::OpenLink;
use crate::stability_report::Report;
use mml_board::Board;
use mml_ids::{Items, Memory, NodeSet, Rank};
use mml_rules::{Kind, Scene, married};
use std::alloc::Global;

/// Returns the report on the board's configuration: its number, its pairs, its free nodes (in no pair), its privileged
/// nodes, and whether it is stable. The report also has the open links (between free nodes), each with its witness.
/// Returns `Memory` if memory runs out.
#[tactic(auto, using(crate::proofs::NamedLemmas::report_names))]
pub fn report(alloc: Global, board: &Board) -> Result<Report, Memory>
    ensures report { IfOk result (λ report. report ≡ report_of board.now) }
    ensures nodes { IfOk result (NamesNodes (length board.now.network.registers)) }
{
    // Called only for its contract, which the proof needs: the world is lawful.
    let _number = board.number();
    report_lists(alloc, board)
}

/// Returns the report on the board's configuration. `report` returns the same result, and its contract also says that
/// the report names only nodes of the board. Returns `Memory` if memory runs out.
fn report_lists(alloc: Global, board: &Board) -> Result<Report, Memory>
    ensures { IfOk result (λ report. report ≡ report_of board.now) }
{
    // Called only for its contract, which the proof needs: there are at most `MAX_NODES` nodes, and the configuration
    // is lawful.
    let _size = board.size();
    let mut kinds = [None; PLACES];
    find_kinds(board, &mut kinds);
    let pairs = pairs(alloc, board)?;
    let (free, free_set) = free_nodes(alloc, board)?;
    let (privileged, stable) = privileged_nodes(alloc, board, &kinds)?;
    // A `?` inside the literal below would make the proof longer.
    let open_links = open_links(alloc, board, &kinds, free_set)?;
    Ok(Report {
        at: board.number(),
        pairs: Items::of(pairs),
        free: Items::of(free),
        privileged: Items::of(privileged),
        open_links: Items::of(open_links),
        stable,
    })
}

/// Returns the pairs in rising order. A pair is two nodes that point at each other, the lower one first. Returns
/// `Memory` if memory runs out.
fn pairs(alloc: Global, board: &Board) -> Result<Vec<(Rank, Rank)>, Memory>
    ensures { IfOk result (λ all. all.items ≡ pairs (configuration board.now)) }
{
    let mut all = Vec::new(alloc);
    for index in 0..board.size() {
        let node = Rank::at(index);
        if let Some(partner) = board.p(node) {
            if node < partner && board.p(partner) == Some(node) {
                all.push((node, partner))?;
            }
        }
    }
    Ok(all)
}

/// Returns the free nodes, which are in no pair: as a list in rising order, and as a set, which is used to find the
/// open links. Returns `Memory` if memory runs out.
#[tactic(auto, unfolding(mml_ids::specs::Sets::those_below))]
fn free_nodes(alloc: Global, board: &Board) -> Result<(Vec<Rank>, NodeSet), Memory>
    ensures list { IfOk result (λ free. free.0.items ≡ free_nodes (configuration board.now)) }
    ensures set { IfOk result (λ free. free.1
        ≡ those_below (length board.now.network.registers) (is_free (configuration board.now))) }
{
    let mut all = Vec::with_capacity(alloc, board.size() as usize)?;
    let mut set = NodeSet::empty();
    for index in 0..board.size() {
        let node = Rank::at(index);
        if !married(board, node) {
            all.push(node)?;
            set = set.with(node);
        }
    }
    Ok((all, set))
}

/// Returns the privileged nodes in rising order, each with the kind of the rule that is enabled there. Also returns
/// whether there are none, that is, whether the configuration is stable. `kinds` has the kind of the rule that is
/// enabled at each node, by rank. Returns `Memory` if memory runs out.
fn privileged_nodes(
    alloc: Global,
    board: &Board,
    kinds: &[Option<Kind>],
) -> Result<(Vec<(Rank, Kind)>, bool), Memory>
    requires kinds { AreKinds (configuration board.now) kinds.now }
    ensures list { IfOk result (λ all. all.0.items ≡ privileged_nodes (configuration board.now)) }
    ensures stable { IfOk result (λ all. all.1 ≡ is_stable (configuration board.now)) }
{
    let mut all = Vec::with_capacity(alloc, board.size() as usize)?;
    for index in 0..board.size() {
        let node = Rank::at(index);
        if let Some(kind) = kind_at(board, kinds, node) {
            all.push((node, kind))?;
        }
    }
    let stable = all.is_empty();
    Ok((all, stable))
}

/// Returns the greater ends of the open links (between two free nodes) whose lower end is `a`. Returns no nodes if `a`
/// isn't free. `rest` must have exactly the free nodes whose ranks are at least that of `a`.
fn open_ends(board: &Board, rest: NodeSet, a: Rank) -> NodeSet
    requires a { a < length board.now.network.registers }
    requires rest { IsFreeFrom (configuration board.now) a rest }
    ensures { (b : ℕ) → set.contains result b ≡ is_open (configuration board.now) a b }
{
    // Called only for its contract, which the proof needs: there are at most `MAX_NODES` nodes, and the configuration
    // is lawful.
    let _size = board.size();
    if rest.has(a) {
        board.neighbours(a).both(rest)
    } else {
        NodeSet::empty()
    }
}

/// Returns the open link between `a` and the greater `b`, with its witness. `kinds` has the kind of the rule that is
/// enabled at each node, by rank.
fn open_link(board: &Board, kinds: &[Option<Kind>], a: Rank, b: Rank) -> OpenLink
    requires kinds { AreKinds (configuration board.now) kinds.now }
    requires a { a < length board.now.network.registers }
    requires b { b < length board.now.network.registers }
    ensures { result ≡ open_link (configuration board.now) a b }
{
    let (node, kind) = witness(board, kinds, a, b);
    OpenLink { a, b, node, kind }
}

/// Appends the open links whose lower end is `a` to `all`, each with its witness. `ends` must have exactly the greater
/// ends of these links. `kinds` has the kind of the rule that is enabled at each node, by rank. Returns `Memory` if
/// memory runs out, after some of the links may have been appended.
#[tactic(auto, using(crate::proofs::ReportsLemmas::links_of_ends, mml_ids::proofs::SetsLemmas::all_put, std::proofs::lemmas::Bool::Decides::nat_tests))]
fn put_open_links(
    all: &mut Vec<OpenLink>,
    board: &Board,
    kinds: &[Option<Kind>],
    a: Rank,
    ends: NodeSet,
) -> Result<(), Memory>
    requires kinds { AreKinds (configuration board.now) kinds.now }
    requires ends { (b : ℕ) → set.contains ends b ≡ is_open (configuration board.now) a b }
    ensures { OnOk result
        (all.new.items ≡ all.old.items ++ open_links_at (configuration board.now) a) }
{
    // Called only for its contract, which the proof needs: there are at most `MAX_NODES` nodes, and the configuration
    // is lawful.
    let _size = board.size();
    let mut left = ends;
    while let Some(b) = left.take_least() {
        all.push(open_link(board, kinds, a, b))?;
    }
    Ok(())
}

/// Returns the open links, which join two free nodes, in rising order, each with its witness. `free` must have exactly
/// the free nodes. `kinds` has the kind of the rule that is enabled at each node, by rank. Returns `Memory` if memory
/// runs out.
fn open_links(
    alloc: Global,
    board: &Board,
    kinds: &[Option<Kind>],
    free: NodeSet,
) -> Result<Vec<OpenLink>, Memory>
    requires kinds { AreKinds (configuration board.now) kinds.now }
    requires free { free
        ≡ those_below (length board.now.network.registers) (is_free (configuration board.now)) }
    ensures { IfOk result (λ all. all.items ≡ open_links (configuration board.now)) }
{
    // Called only for its contract, which the proof needs: there are at most `MAX_NODES` nodes, and the configuration
    // is lawful.
    let _size = board.size();
    let mut all = Vec::new(alloc);
    let mut rest = free;
    for index in 0..board.size() {
        let a = Rank::at(index);
        put_open_links(&mut all, board, kinds, a, open_ends(board, rest, a))?;
        rest = rest.except(a);
    }
    Ok(all)
}
