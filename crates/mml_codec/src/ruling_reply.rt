//! The reply to a ruling.
//!
//! A ruling is what the policy decides about a command: a denial, what is shown, a granted event, or a refusal. The
//! place of an event is its number in the list of events, from 1. A board is the state of a run after some events.
ghost use Rattle.std.specs.Prelude.{◌≡◌, IfOk, OnErr};
ghost use Rattle.mml_policy.specs.declared.ruling.Ruling.TheVariants as rulings;
ghost use Rattle.mml_codec.specs.Rulings.{reply_of, reply_of_done};

use crate::reply::{Refused, Reply};
use mml_board::{Board, Done};
use mml_ids::Memory;
use mml_policy::Ruling;
use mml_stable::report;
use std::alloc::Global;

/// Returns the reply for the ruling on a command. If the ruling grants an event, `board` is the board after it. Only a
/// report allocates. Returns `Memory` if memory runs out.
pub fn reply_of(alloc: Global, board: &Board, ruling: Ruling) -> Result<Reply, Memory>
    ensures reply { IfOk result (λ r. r ≡ reply_of board.now ruling) }
    ensures memory { OnErr result (ruling ≡ rulings.Reported) }
{
    match ruling {
        Ruling::Denied(denial) => Ok(Reply::Deny(denial)),
        Ruling::Seen(see) => Ok(Reply::See(see)),
        Ruling::Looked(look) => Ok(Reply::Look(look)),
        Ruling::Reported => Ok(Reply::Report(report(alloc, board)?)),
        Ruling::Full => Ok(Reply::Refuse(Refused::Full)),
        Ruling::Journal => Ok(Reply::Refuse(Refused::Journal)),
        Ruling::Granted { done, .. } => Ok(reply_of_done(board.number(), board.place(), done)),
    }
}

/// Returns the reply for an event that happened, with the effect `done`. `at` is the number of the configuration after
/// the event, and `place` is the event's place.
pub fn reply_of_done(at: u64, place: u64, done: Done) -> Reply
    ensures { result ≡ reply_of_done at place done }
{
    match done {
        Done::Move { node, kind } => Reply::Move {
            at,
            place,
            node,
            kind,
        },
        Done::Close { moved } => Reply::Close { at, place, moved },
        Done::Fault { node, dropped } => Reply::Fault {
            at,
            place,
            node,
            dropped,
        },
        Done::Link { a, b, dropped } => Reply::Link {
            at,
            place,
            a,
            b,
            dropped,
        },
        Done::Cut { a, b, dropped } => Reply::Cut {
            at,
            place,
            a,
            b,
            dropped,
        },
        Done::Release { node } => Reply::Release { at, place, node },
    }
}
