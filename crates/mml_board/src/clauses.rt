//! The clauses of each act, in the order in which they are tried. No other module tests them.
//!
//! An act is a request for an event. A clause is a condition for it; a denial says which clause doesn't hold. A grant
//! chooses a move for a node, a release drops it, and a close applies all chosen moves at once. A fault sets a node's
//! registers, a link joins two nodes, and a cut removes a link. The rank of a node is its index in the rising order
//! of identifiers. A board is the state of a run after some events.
//!
//! A node of an act is `None` if no node has the identifier that was asked for. Functions whose bodies don't read
//! `owners` have it as a parameter because their contracts name it.
ghost use Rattle.std.specs.Prelude.{◌≡◌, ◌<◌, length, IfSome, Option, Some};
ghost use Rattle.std.specs.Option.{ok_or};
ghost use Rattle.mml_board.specs.declared.act.Act.TheVariants as act;
ghost use Rattle.mml_board.specs.Clauses.{check, pointer, is_teacher};
ghost use Rattle.mml_board.specs.ActNodes.{AreThere};

use crate::act::{Act, Owners};
use crate::{Board, Denial, Event};
use mml_ids::{Rank, need};
use mml_lab::{Student, Who};
use mml_rules::{Regs, Rule};

/// Tries the clauses of an act, the conditions under which it is granted to `who`, in their order. Returns the granted
/// event if all hold, and otherwise the denial of the first that doesn't. `owners` says who owns which node. If the act
/// is a move, its node must be `None` or a node of the board. The function is inlined, so that a caller that passes a
/// known act tests only the clauses of that act.
#[inline(always)]
pub fn check<O: Owners>(owners: &O, board: &Board, who: Who, act: &Act) -> Result<Event, Denial>
    requires { AreThere (length board.now.network.registers) act.now }
    ensures { result ≡ check (O.owned owners.now) board.now who act.now }
{
    match *act {
        Act::Move { node, rule, at } => check_move(owners, board, who, node, rule, at),
        Act::Close => check_close(owners, board, who),
        Act::Fault { node, p, m } => check_fault(owners, board, who, node, p, m),
        Act::Link { a, b } => check_link(owners, board, who, a, b),
        Act::Cut { a, b } => check_cut(owners, board, who, a, b),
        Act::Release { node } => check_release(owners, board, who, node),
    }
}

/// Returns the grant of a move if four clauses hold, which are tried in this order: `who` is a student who owns the
/// node; `at` is the number of the current configuration; no move is chosen for the node; `rule` may be applied there.
/// Otherwise returns the denial of the first clause that doesn't hold. A `rule` of `None`, a marriage with a node that
/// doesn't exist, may not be applied. `node` must be `None` or a node of the board.
fn check_move<O: Owners>(
    owners: &O,
    board: &Board,
    who: Who,
    node: Option<Rank>,
    rule: Option<Rule>,
    at: u64,
) -> Result<Event, Denial>
    requires node { IfSome node (λ i. i < length board.now.network.registers) }
    ensures { result ≡ check (O.owned owners.now) board.now who (act.Move node rule at) }
{
    let s = match who {
        Who::Teacher => return Err(Denial::NotOwner),
        Who::Student(student) => student,
    };
    // A missing node takes the same steps as a node of somebody else: some node and a student who owns nothing are
    // tested in its place.
    let asking = &asking(who, node);
    let is_owner = owners.is_owned(asking.0, asking.1);
    need(is_owner, Denial::NotOwner)?;
    let i = node.ok_or(Denial::NotOwner)?;
    let number = board.number();
    need(at == number, Denial::Stale(number))?;
    need(board.chosen(i).is_none(), Denial::Chosen)?;
    // A reference is used because the toolchain doesn't copy a value that contains a rank, even if its type is `Copy`.
    let rule = &named(rule, Denial::Guard)?;
    need(board.may_apply(i, *rule), Denial::Guard)?;
    Ok(Event::Grant {
        who: s,
        node: i,
        rule: *rule,
    })
}

/// Returns the participant and the node for the test of ownership: `who` and `node`. If `node` is `None`, returns a
/// student who isn't in any roster, and the node of rank 0, so that the test takes the same steps.
fn asking(who: Who, node: Option<Rank>) -> (Who, Rank)
    ensures { IfSome node (λ i. result ≡ (who, i)) }
{
    match node {
        Some(i) => (who, i),
        None => (Who::Student(Student::new(u16::MAX)), Rank::at(0)),
    }
}

/// Returns the close if the teacher asks, and some node has a chosen move. Otherwise returns the denial of the first of
/// these clauses that doesn't hold.
fn check_close<O: Owners>(owners: &O, board: &Board, who: Who) -> Result<Event, Denial>
    ensures { result ≡ check (O.owned owners.now) board.now who act.Close }
{
    need(is_teacher(who), Denial::NotTeacher)?;
    need(board.is_any_chosen(), Denial::Empty)?;
    Ok(Event::Close)
}

/// Returns the fault, which sets the node's registers to `p` and `m`, if three clauses hold. The teacher must ask, the
/// node must exist, and `p` must be null or a neighbour of the node. Otherwise returns the denial of the first clause
/// that doesn't hold. A `p` of `None` is null, and `Some(None)` is a node that doesn't exist.
fn check_fault<O: Owners>(
    owners: &O,
    board: &Board,
    who: Who,
    node: Option<Rank>,
    p: Option<Option<Rank>>,
    m: bool,
) -> Result<Event, Denial>
    ensures { result ≡ check (O.owned owners.now) board.now who (act.Fault node p m) }
{
    need(is_teacher(who), Denial::NotTeacher)?;
    let i = node.ok_or(Denial::NoNode)?;
    // A reference is used because the toolchain doesn't copy a value that contains a rank, even if its type is `Copy`.
    let q = &pointer(p, Denial::BadRegister)?;
    need(board.may_point(i, *q), Denial::BadRegister)?;
    Ok(Event::Fault {
        node: i,
        regs: Regs { p: *q, m },
    })
}

/// Returns the event that links the nodes `first` and `second` if the teacher asks, both nodes exist, they differ, and
/// they aren't linked. Otherwise returns the denial of the first of these clauses that doesn't hold.
fn check_link<O: Owners>(
    owners: &O,
    board: &Board,
    who: Who,
    first: Option<Rank>,
    second: Option<Rank>,
) -> Result<Event, Denial>
    ensures { result ≡ check (O.owned owners.now) board.now who (act.Link first second) }
{
    need(is_teacher(who), Denial::NotTeacher)?;
    let a = first.ok_or(Denial::NoNode)?;
    let b = second.ok_or(Denial::NoNode)?;
    need(a != b, Denial::Loop)?;
    need(!board.is_link(a, b), Denial::Linked)?;
    Ok(Event::Link { a, b })
}

/// Returns the event that removes the link between the nodes `first` and `second` if the teacher asks, both nodes
/// exist, and they are linked. Otherwise returns the denial of the first of these clauses that doesn't hold.
fn check_cut<O: Owners>(
    owners: &O,
    board: &Board,
    who: Who,
    first: Option<Rank>,
    second: Option<Rank>,
) -> Result<Event, Denial>
    ensures { result ≡ check (O.owned owners.now) board.now who (act.Cut first second) }
{
    need(is_teacher(who), Denial::NotTeacher)?;
    let a = first.ok_or(Denial::NoNode)?;
    let b = second.ok_or(Denial::NoNode)?;
    need(board.is_link(a, b), Denial::NotLinked)?;
    Ok(Event::Cut { a, b })
}

/// Returns the event that drops a node's chosen move if the teacher asks, the node exists, and it has a chosen move.
/// Otherwise returns the denial of the first of these clauses that doesn't hold.
fn check_release<O: Owners>(
    owners: &O,
    board: &Board,
    who: Who,
    node: Option<Rank>,
) -> Result<Event, Denial>
    ensures { result ≡ check (O.owned owners.now) board.now who (act.Release node) }
{
    need(is_teacher(who), Denial::NotTeacher)?;
    let i = node.ok_or(Denial::NoNode)?;
    need(board.chosen(i).is_some(), Denial::NotChosen)?;
    Ok(Event::Release { node: i })
}

/// Returns whether `who` is the teacher.
pub fn is_teacher(who: Who) -> bool
    ensures { result ≡ is_teacher who }
{
    matches!(who, Who::Teacher)
}

/// Returns the rule, or the error `denial` if `rule` is `None`: no node has the identifier of the marriage's partner.
fn named(rule: Option<Rule>, denial: Denial) -> Result<Rule, Denial>
    ensures { result ≡ ok_or rule denial }
{
    match rule {
        Some(rule) => Ok(rule),
        None => Err(denial),
    }
}

/// Returns what the register p is to point at: `None` for null, or a node. Returns `denial` if `p` is `Some(None)`, a
/// node that doesn't exist.
fn pointer(p: Option<Option<Rank>>, denial: Denial) -> Result<Option<Rank>, Denial>
    ensures { result ≡ pointer p denial }
{
    match p {
        None => Ok(None),
        Some(found) => Ok(Some(found.ok_or(denial)?)),
    }
}
