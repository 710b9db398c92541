//! The ruling on a command.
//!
//! A clause is a condition under which a request is granted; a denial names the first that doesn't hold. An act is a
//! request for an event. The verdict on a command is its denial, or what it may do if all its clauses hold. The ruling
//! is the verdict, or a refusal in place of a grant. Such a refusal means that the lab allows no more events, or that
//! the journal is halted. The journal is halted if a line couldn't be written to it. A course is a lab and the current
//! state of its run; its board must have as many nodes as it has identifiers.
ghost use Rattle.std.specs.Prelude.{◌≡◌, OnErr, IfOk, true};
ghost use Rattle.mml_policy.specs.Courses.{NamesEachNode, ruling_in};
ghost use Rattle.mml_policy.specs.Rulings.{event_of, is_look};

use crate::command::Command;
use crate::course::Course;
use crate::look::{Look, look_of};
use crate::see::{See, see_of};
use crate::verdict::{Leave, clauses};
use mml_board::{Denial, Done, Event};
use mml_ids::Memory;
use mml_lab::Who;
use std::alloc::Global;

/// The ruling on a command: its denial, what it shows, the event that it causes, or a refusal in place of the event.
#[derive(Drop)]
pub enum Ruling {
    /// A clause doesn't hold.
    Denied(Denial),
    /// All clauses of a see hold. The see shows these registers.
    Seen(See),
    /// All clauses of a look hold. The look shows this node, with its neighbours.
    Looked(Look),
    /// All clauses of a report hold. The caller makes the report.
    Reported,
    /// All clauses hold, but the lab allows no more events.
    Full,
    /// All clauses hold and the lab allows one more event, but the journal is halted.
    Journal,
    /// The event happens, with this effect.
    Granted { event: Event, done: Done },
}

impl Ruling {
    /// Returns the event that the ruling grants, or `None` if it grants none.
    pub fn event(&self) -> Option<Event>
        ensures { result ≡ event_of self.now }
    {
        match self {
            Ruling::Granted { event, .. } => Some(*event),
            Ruling::Denied(_)
            | Ruling::Seen(_)
            | Ruling::Looked(_)
            | Ruling::Reported
            | Ruling::Full
            | Ruling::Journal => None,
        }
    }
}

/// Returns the ruling on a command of `who`. If a clause doesn't hold, the ruling is the denial of the first that
/// doesn't. If all hold, the ruling on a see or a look contains what is shown. The ruling on a report is `Reported`,
/// and the caller makes the report.
///
/// The ruling on an act whose clauses hold is `Full` if there are `limit` events already, and otherwise `Journal` if
/// `is_halted` is set. In any other case it is the granted event with its effect; the caller has to apply the event.
/// Only a look allocates. Returns `Memory` if memory runs out.
// `rule_on` isn't inlined. When it was, a hidden node took other steps than a node that doesn't exist.
#[inline(never)]
pub fn rule_on(
    alloc: Global,
    course: &Course<'_>,
    limit: u64,
    is_halted: bool,
    who: Who,
    command: &Command,
) -> Result<Ruling, Memory>
    requires { NamesEachNode course.now }
    ensures ruling { IfOk result (λ r. r ≡
        ruling_in course.now limit is_halted who command.now) }
    ensures memory { OnErr result
        (is_look (ruling_in course.now limit is_halted who command.now) ≡ true) }
{
    let board = course.board;
    let leave = match clauses(course, who, command) {
        Ok(leave) => leave,
        Err(denial) => return Ok(Ruling::Denied(denial)),
    };
    match leave {
        Leave::See(node) => Ok(Ruling::Seen(see_of(board, node))),
        Leave::Look(node) => Ok(Ruling::Looked(look_of(alloc, board, node)?)),
        Leave::Report => Ok(Ruling::Reported),
        Leave::Grant(event) => {
            if limit <= board.place() {
                return Ok(Ruling::Full);
            }
            if is_halted {
                return Ok(Ruling::Journal);
            }
            let done = board.done_by(&event);
            Ok(Ruling::Granted { event, done })
        }
    }
}
