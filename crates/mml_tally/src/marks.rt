//! The marks: what is counted for a student.
//!
//! A grant chooses a move for a node, a release drops it, and a close applies all chosen moves at once. A fault sets a
//! node's registers, a link joins two nodes, and a cut removes a link. The place of an event is its number in the list
//! of events, from 1. A function that gets the granted moves as `all` doesn't get the events that grant them. Its
//! contract holds for any list `es` of events that grants these moves. Most functions are small, because each computes
//! one definition that its contract names.
ghost use Rattle.std.specs.Prelude.{◌≡◌, List, IfOk, count_by};
ghost use Rattle.mml_board.specs.declared.event.Event.{Event};
ghost use Rattle.mml_tally.specs.Moves.{moves};
ghost use Rattle.mml_tally.specs.Marks.{is_kind, is_applied, by_rule, first_place, last_place, count_shared, moves_by, moves_at, applied, marks_of};
ghost use Rattle.mml_tally.specs.inside.Closes.{close_of, count_new};

use crate::fate::Fate;
use crate::granted_move::Move;
use crate::owners::is_shared;
use mml_ids::{Memory, Rank};
use mml_lab::{Roster, Student};
use mml_rules::Kind;
use std::alloc::Global;

/// The number of moves of each rule.
#[derive(Clone, Copy, PartialEq, Eq)]
pub struct ByRule {
    pub update: u64,
    pub marriage: u64,
    pub seduction: u64,
    pub abandonment: u64,
}

/// What the tally counts of one student's moves in a run. A granted move is applied by the next close, unless it is
/// dropped before.
#[derive(Clone, Copy, PartialEq, Eq)]
pub struct Marks {
    /// The moves that were granted.
    pub granted: ByRule,
    /// The granted moves that a close applied.
    pub applied: ByRule,
    /// The number of closes that applied a move of the student's.
    pub closes: u64,
    /// The place of the first grant, if there is one.
    pub first: Option<u64>,
    /// The place of the last grant, if there is one.
    pub last: Option<u64>,
    /// The applied moves at nodes that others own too.
    pub shared: u64,
}

/// Returns the counts of a student's moves. `all` must have the moves that the run's events grant to all students.
/// Returns `Memory` if memory runs out.
#[tactic(auto, using(std::proofs::lemmas::Bool::Decides::nat_tests, crate::proofs::ClosesLemmas::closes_counted))]
pub fn marks_of(
    alloc: Global,
    roster: &Roster,
    all: &[Move],
    student: Student,
) -> Result<Marks, Memory>
    ensures { IfOk result (λ marks. (es : List Event) → all.now ≡ moves es →
        marks ≡ marks_of roster.now es student) }
{
    let own = moves_by(alloc, all, student)?;
    let applied = applied(alloc, &own)?;
    Ok(Marks {
        granted: by_rule(&own),
        applied: by_rule(&applied),
        closes: count_applying_closes(&own),
        first: first_place(&own),
        last: last_place(&own),
        shared: count_shared(roster, &applied),
    })
}

/// Returns the moves of a student among `all`, in order. Returns `Memory` if memory runs out.
pub fn moves_by(alloc: Global, all: &[Move], student: Student) -> Result<Vec<Move>, Memory>
    ensures { IfOk result (λ own. own.items ≡ moves_by student all.now) }
{
    let own = all.iter().copied().filter(|granted| granted.who == student);
    Ok(own.collect(alloc)?)
}

/// Returns the moves at a node among `all`, in order. Returns `Memory` if memory runs out.
pub fn moves_at(alloc: Global, all: &[Move], node: Rank) -> Result<Vec<Move>, Memory>
    ensures { IfOk result (λ there. there.items ≡ moves_at node all.now) }
{
    let there = all.iter().copied().filter(|granted| granted.node == node);
    Ok(there.collect(alloc)?)
}

/// Returns the moves among `all` that a close applied, in order. Returns `Memory` if memory runs out.
fn applied(alloc: Global, all: &[Move]) -> Result<Vec<Move>, Memory>
    ensures { IfOk result (λ some. some.items ≡ applied all.now) }
{
    let some = all.iter().copied().filter(|granted| is_applied(granted));
    Ok(some.collect(alloc)?)
}

/// Returns whether a close applied the move.
pub fn is_applied(granted: &Move) -> bool
    ensures { result ≡ is_applied granted.now }
{
    match granted.fate {
        Fate::Applied(_) => true,
        Fate::Released | Fate::Dropped | Fate::Chosen => false,
    }
}

/// Returns how many of the moves are of each kind of rule.
pub fn by_rule(all: &[Move]) -> ByRule
    ensures { result ≡ by_rule all.now }
{
    ByRule {
        update: count_kind(all, Kind::Update),
        marriage: count_kind(all, Kind::Marriage),
        seduction: count_kind(all, Kind::Seduction),
        abandonment: count_kind(all, Kind::Abandonment),
    }
}

/// Returns how many of the moves are of this kind of rule.
fn count_kind(all: &[Move], kind: Kind) -> u64
    ensures { result ≡ count_by (λ m. is_kind kind m.kind) all.now }
{
    all.iter()
        .filter(|granted| is_kind(kind, granted.kind))
        .count() as u64
}

/// Returns whether two kinds of rules are the same. This is `==`, with the contract that the proofs of its callers
/// need.
pub(crate) fn is_kind(asked: Kind, kind: Kind) -> bool
    ensures { result ≡ is_kind asked kind }
{
    asked == kind
}

/// Returns how many closes applied at least one of a student's moves. The moves are in the order of their grants, so
/// moves that the same close applied follow one another. A close is counted if it isn't the one that applied an earlier
/// move.
fn count_applying_closes(own: &[Move]) -> u64
    ensures { result ≡ count_new 0 own.now }
{
    let mut last = 0;
    let mut closes = 0u64;
    for granted in own {
        let close = close_of(last, granted.fate);
        if close != last {
            closes += 1;
        }
        last = close;
    }
    closes
}

/// Returns the place of the close that applied a move with this fate, or `last` if none did. `last` is the place of the
/// close that applied an earlier move, or 0.
fn close_of(last: u64, fate: Fate) -> u64
    ensures { result ≡ close_of last fate }
{
    match fate {
        Fate::Applied(close) => close,
        Fate::Released | Fate::Dropped | Fate::Chosen => last,
    }
}

/// Returns the place at which the first of the moves was granted, or `None` if there are no moves.
fn first_place(all: &[Move]) -> Option<u64>
    ensures { result ≡ first_place all.now }
{
    let first = all.first()?;
    Some(first.place)
}

/// Returns the place at which the last of the moves was granted, or `None` if there are no moves.
fn last_place(all: &[Move]) -> Option<u64>
    ensures { result ≡ last_place all.now }
{
    let last = all.last()?;
    Some(last.place)
}

/// Returns how many of the moves are at nodes that several students own.
fn count_shared(roster: &Roster, all: &[Move]) -> u64
    ensures { result ≡ count_shared roster.now all.now }
{
    all.iter()
        .filter(|granted| is_shared(roster, granted.node))
        .count() as u64
}
