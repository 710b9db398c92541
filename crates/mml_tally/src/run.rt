//! The counts of a run.
//!
//! A grant chooses a move for a node, a release drops it, and a close applies all chosen moves at once. A fault sets a
//! node's registers, a link joins two nodes, and a cut removes a link. The place of an event is its number in the list
//! of events, from 1. Most functions are small, because each computes one definition that its contract names.
ghost use Rattle.std.specs.Prelude.{◌≡◌, ◌≤◌, length, count_by};
ghost use Rattle.mml_convergence.specs.Moves.{is_close};
ghost use Rattle.mml_tally.specs.Moves.{moves};
ghost use Rattle.mml_tally.specs.Marks.{is_applied};
ghost use Rattle.mml_tally.specs.Runs.{is_fault, is_link, is_cut, is_change, last_change, is_applied_after, run_of};

use crate::fate::Fate;
use crate::granted_move::Move;
use crate::marks::is_applied;
use mml_board::Event;

/// What the tally counts of a run as a whole. A close applies the chosen moves. A fault sets registers, a link joins
/// two nodes, and a cut removes a link.
#[derive(Clone, Copy, PartialEq, Eq)]
pub struct Run {
    pub closes: u64,
    pub faults: u64,
    pub links: u64,
    pub cuts: u64,
    /// The moves that closes applied.
    pub moves: u64,
    /// The moves that closes applied since the last fault, link or cut.
    pub moves_since: u64,
    /// The closes since the last fault, link or cut.
    pub closes_since: u64,
}

/// Returns the counts of the run with these events. `granted` must have the moves that the events grant, each with what
/// happened to it.
pub fn run_of(events: &[Event], granted: &[Move]) -> Run
    requires { granted.now ≡ moves events.now }
    ensures { result ≡ run_of events.now }
{
    let since = last_change(events);
    let (_, later) = events.split_at(since);
    Run {
        closes: count_closes(events),
        faults: count_faults(events),
        links: count_links(events),
        cuts: count_cuts(events),
        moves: count_applied(granted),
        moves_since: count_applied_after(granted, since as u64),
        closes_since: count_closes(later),
    }
}

/// Returns how many closes there are among the events.
fn count_closes(events: &[Event]) -> u64
    ensures { result ≡ count_by is_close events.now }
{
    events
        .iter()
        .filter(|event| matches!(event, Event::Close))
        .count() as u64
}

/// Returns how many faults there are among the events.
fn count_faults(events: &[Event]) -> u64
    ensures { result ≡ count_by is_fault events.now }
{
    events
        .iter()
        .filter(|event| matches!(event, Event::Fault { .. }))
        .count() as u64
}

/// Returns how many links there are among the events.
fn count_links(events: &[Event]) -> u64
    ensures { result ≡ count_by is_link events.now }
{
    events
        .iter()
        .filter(|event| matches!(event, Event::Link { .. }))
        .count() as u64
}

/// Returns how many cuts there are among the events.
fn count_cuts(events: &[Event]) -> u64
    ensures { result ≡ count_by is_cut events.now }
{
    events
        .iter()
        .filter(|event| matches!(event, Event::Cut { .. }))
        .count() as u64
}

/// Returns whether the event is a fault, a link or a cut.
fn is_change(event: &Event) -> bool
    ensures { result ≡ is_change event.now }
{
    matches!(
        event,
        Event::Fault { .. } | Event::Link { .. } | Event::Cut { .. }
    )
}

/// Returns the place of the last fault, link or cut among the events, or 0 if there is none. The events are those of a
/// run from its beginning, so the first has the place 1.
pub(crate) fn last_change(events: &[Event]) -> usize
    ensures exact { result ≡ last_change 0 1 events.now }
    ensures within { result ≤ length events.now }
{
    let mut last = 0;
    for (index, event) in events.iter().enumerate() {
        if is_change(event) {
            last = index + 1;
        }
    }
    last
}

/// Returns how many of the moves were applied by a close.
fn count_applied(moves: &[Move]) -> u64
    ensures { result ≡ count_by is_applied moves.now }
{
    moves.iter().filter(|granted| is_applied(granted)).count() as u64
}

/// Returns whether a close whose place is greater than `since` applied the move.
fn is_applied_after(granted: &Move, since: u64) -> bool
    ensures { result ≡ is_applied_after since granted.now }
{
    match granted.fate {
        Fate::Applied(close) => close > since,
        Fate::Released | Fate::Dropped | Fate::Chosen => false,
    }
}

/// Returns how many of the moves were applied by a close whose place is greater than `since`.
fn count_applied_after(moves: &[Move], since: u64) -> u64
    ensures { result ≡ count_by (is_applied_after since) moves.now }
{
    moves
        .iter()
        .filter(|granted| is_applied_after(granted, since))
        .count() as u64
}
