//! The rounds of a run since its last fault, link or cut.
//!
//! A node is privileged if some rule is enabled there. A round is a list of events in which each node has its turn: at
//! some point it isn't privileged, or a close applies its move. A list of events is legal if each event is allowed
//! after the earlier ones. The place of an event is its number in the list of events, from 1. A board is the state of
//! a run after some events.
ghost use Rattle.std.specs.Prelude.{◌≡◌, ◌≤◌, ◌++◌, true, length, take, IfOk, OnOk};
ghost use Rattle.mml_board.specs.World.{opening_of};
ghost use Rattle.mml_board.specs.Events.{can_absorb, after};
ghost use Rattle.mml_board.specs.Lists.{is_legal_in, world_in};
ghost use Rattle.mml_tally.specs.Rounds.{rounds_after, rounds_since, rounds_line};
ghost use Rattle.mml_tally.specs.inside.Waiting.{privileged_nodes, moved_nodes, still_waiting};

use crate::run::last_change;
use crate::text::put_numbers;
use mml_board::{Board, Event};
use mml_ids::{Memory, NodeSet, Piece, Rank, put};
use mml_lab::Lab;
use mml_rules::Scene;
use std::alloc::Global;

/// Appends the line `rounds`: how many rounds of a lab's run ended since the last fault, link or cut, as `rounds_since`
/// counts them. The events must be legal. Returns `Memory` if memory runs out.
pub fn put_rounds(
    out: &mut Vec<u8>,
    alloc: Global,
    lab: &Lab,
    events: &[Event],
) -> Result<(), Memory>
    requires { is_legal_in lab.now events.now ≡ true }
    ensures { OnOk result (out.new.items ≡ out.old.items ++ rounds_line lab.now events.now) }
{
    let rounds = rounds_since(alloc, lab, events)?;
    put(out, &[Piece::Text("rounds")])?;
    put_numbers(out, &[rounds])?;
    put(out, &[Piece::Text("\n")])
}

/// Returns how many rounds of a lab's run ended after its last fault, link or cut. If there was none, returns how many
/// ended in the whole run. A round ends as soon as each node has had its turn in it: at some point the node wasn't
/// privileged, or a close applied its move. The events must be legal. Returns `Memory` if memory runs out.
pub fn rounds_since(alloc: Global, lab: &Lab, events: &[Event]) -> Result<u64, Memory>
    requires { is_legal_in lab.now events.now ≡ true }
    ensures { IfOk result
        (λ rounds. rounds ≡ rounds_since (opening_of lab.now.network) events.now) }
{
    let since = last_change(events);
    let mut board = Board::new(alloc, lab)?;
    replay(lab, events, &mut board, since);
    Ok(count_rounds(lab, events, &mut board, since))
}

/// Applies the first `count` events of a lab's run to a board that is at the beginning of the run. The events must be
/// legal. `lab` is used only in the contract and its proof.
#[tactic(auto, using(crate::proofs::ReplayLemmas::one_event_more))]
fn replay(lab: &Lab, events: &[Event], board: &mut Board, count: usize)
    requires legal { is_legal_in lab.now events.now ≡ true }
    requires board { board.old ≡ opening_of lab.now.network }
    requires few { count ≤ length events.now }
    ensures { board.new ≡ world_in lab.now (take count events.now) }
{
    // Called only for its contract, which the proof needs: the lab is lawful (`IsLab`).
    let _nodes = lab.node_count();
    // The label names the loop in the proof.
    'events: for index in 0..count {
        board.apply(events[index]);
    }
}

/// Returns how many rounds end in the events after the first `since` ones. `board` must be at the state after the first
/// `since` events, and the later ones are applied to it. The events must be legal. `lab` is used only in the contract
/// and its proof.
#[tactic(auto, using(crate::proofs::ReplayLemmas::one_event_more, crate::proofs::WaitingLemmas::rounds_counted))]
fn count_rounds(lab: &Lab, events: &[Event], board: &mut Board, since: usize) -> u64
    requires legal { is_legal_in lab.now events.now ≡ true }
    requires board { board.old ≡ world_in lab.now (take since events.now) }
    requires few { since ≤ length events.now }
    ensures { result ≡ rounds_after since (opening_of lab.now.network) events.now }
{
    // Called only for its contract, which the proof needs: the lab is lawful (`IsLab`).
    let _nodes = lab.node_count();
    let mut waiting = privileged_nodes(board);
    let mut rounds = 0;
    // The label names the loop in the proof.
    'events: for index in since..events.len() {
        waiting = take_event(board, waiting, &events[index]);
        if waiting.len() == 0 {
            rounds += 1;
            waiting = privileged_nodes(board);
        }
    }
    rounds
}

/// Applies an event to the board. The event must be possible, and its place must fit in 64 bits. `waiting` has the
/// nodes that wait for their turn in the round. Returns those that still wait: the event has applied no move of theirs,
/// and they are privileged after it.
fn take_event(board: &mut Board, waiting: NodeSet, event: &Event) -> NodeSet
    requires { can_absorb board.old event.now ≡ true }
    ensures board { board.new ≡ after board.old event.now }
    ensures waiting { result ≡ still_waiting board.old waiting event.now }
{
    let moved = moved_nodes(board, event);
    board.apply(*event);
    waiting.without(moved).both(privileged_nodes(board))
}

/// Returns the nodes whose moves the event applies: those with a chosen move if it is a close, and else none.
fn moved_nodes(board: &Board, event: &Event) -> NodeSet
    ensures { result ≡ moved_nodes board.now event.now }
{
    match event {
        Event::Close => board.chosen_set(),
        _ => NodeSet::empty(),
    }
}

/// Returns the set of the privileged nodes.
#[tactic(auto, unfolding(mml_ids::specs::Sets::those_below, crate::specs::inside::Waiting::privileged_nodes))]
fn privileged_nodes(board: &Board) -> NodeSet
    ensures { result ≡ privileged_nodes board.now }
{
    let mut nodes = NodeSet::empty();
    for index in 0..board.size() {
        let node = Rank::at(index);
        if board.enabled(node).is_some() {
            nodes = nodes.with(node);
        }
    }
    nodes
}
