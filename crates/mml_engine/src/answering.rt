//! Answering a line: its reply, who is known afterwards, and the events that its session has seen then.
//!
//! An account is known on a connection from its granted hello to its bye. The parameter `at` of a function is the part
//! of the engine that belongs to the session. An engine may be closed; then it shows nothing any more.
ghost use Rattle.std.specs.Prelude.{◌≡◌, false, IfErr, IfSome, OnOk};
ghost use Rattle.mml_lab.specs.Rosters.{IsPrincipal};
ghost use Rattle.mml_policy.specs.Acts.{is_act};
ghost use Rattle.mml_codec.specs.Greetings.{greeting};
ghost use Rattle.mml_codec.specs.Replies.{IsAbout};
ghost use Rattle.mml_engine.specs.Asking.{AsksToSee, IsView};
ghost use Rattle.mml_engine.specs.Told.{told_by};
ghost use Rattle.mml_engine.specs.Turns.{Settles, Turn};

use crate::engine::{Closed, Engine};
use mml_codec::{Greeted, LineScratch, Reply, Request, greet_into, put_in, read_request_with};
use mml_lab::Who;
use mml_policy::Command;
use std::alloc::Global;

/// Answers a request line of a connection, without its newline, and puts the reply into `reply`, since a reply is too
/// large to be returned without a costly copy. `known` is the participant of the lab who is known on the connection, or
/// `None`, and is set to who is known afterwards. `scratch` is working memory for reading the line. If the line isn't a
/// request, or memory runs out while it is read, the reply is a refusal. Returns `Closed`, and puts no reply, if a
/// known participant asks to be shown something and the engine is closed.
pub fn answer_line<E: Engine>(
    engine: &mut E,
    at: &mut E::View,
    alloc: Global,
    known: &mut Option<Who>,
    line: &[u8],
    scratch: &mut LineScratch,
    reply: &mut Reply,
) -> Result<(), Closed>
    requires principal { IfSome known.old (IsPrincipal (E.lab engine.old).roster) }
    ensures lab { E.lab engine.new ≡ E.lab engine.old }
    ensures principal { IfSome known.new (IsPrincipal (E.lab engine.old).roster) }
    ensures turn { OnOk result (Turn E.tells (E.lab engine.old).roster known.old engine.old at.old
        line.now reply.new known.new engine.new at.new) }
    ensures told { OnOk result (Turn (told_by E.lab E.seen) (E.lab engine.old).roster known.old engine.old at.old
        line.now reply.new known.new engine.new at.new) }
    ensures about { OnOk result (IsAbout (E.lab engine.old).ids (E.lab engine.old).roster reply.new) }
    ensures closed { IfErr result (λ _. E.may_close × (known.new ≡ known.old)
        × (engine.new ≡ engine.old) × (at.new ≡ at.old) × IsView known.old line.now) }
{
    match read_request_with(alloc, line, scratch) {
        Ok(request) => match (*known, &request) {
            (Some(who), Request::Do(command)) => obey(engine, at, alloc, who, command, reply),
            _ => settle(engine, at, alloc, known, &request, reply),
        },
        Err(fault) => {
            put_in(reply, Reply::Refuse(fault.refusal()));
            Ok(())
        }
    }
}

/// Puts the reply to a request into `reply`, and sets `known` to who is known afterwards. `answer_line` calls this
/// function for a hello, a bye, and a command while nobody is known. Such lines are rare and the code for them is
/// large, so the function isn't inlined. Its code also handles a command of a known participant, for which the contract
/// holds too. Returns `Closed`, and puts no reply, if such a command asks to be shown something and the engine is
/// closed.
#[inline(never)]
fn settle<E: Engine>(
    engine: &mut E,
    at: &mut E::View,
    alloc: Global,
    known: &mut Option<Who>,
    request: &Request,
    reply: &mut Reply,
) -> Result<(), Closed>
    requires principal { IfSome known.old (IsPrincipal (E.lab engine.old).roster) }
    ensures lab { E.lab engine.new ≡ E.lab engine.old }
    ensures principal { IfSome known.new (IsPrincipal (E.lab engine.old).roster) }
    ensures settles { OnOk result (Settles E.tells known.old engine.old at.old
        (greeting (E.lab engine.old).roster known.old request.now) reply.new known.new engine.new at.new) }
    ensures told { OnOk result (Settles (told_by E.lab E.seen) known.old engine.old at.old
        (greeting (E.lab engine.old).roster known.old request.now) reply.new known.new engine.new at.new) }
    ensures about { OnOk result (IsAbout (E.lab engine.old).ids (E.lab engine.old).roster reply.new) }
    ensures closed { IfErr result (λ _. E.may_close × (known.new ≡ known.old)
        × (engine.new ≡ engine.old) × (at.new ≡ at.old) × AsksToSee known.old request.now) }
{
    match greet_into(engine.roster(at), *known, request, reply) {
        Greeted::Known(now) => {
            *known = now;
            Ok(())
        }
        Greeted::LeftToJudge { who, command } => obey(engine, at, alloc, who, &command, reply),
    }
}

/// Passes a command of `who` to the engine, which puts the reply into `reply`. Returns `Closed`, and puts no reply, if
/// the command asks to be shown something and the engine is closed.
#[inline(always)]
fn obey<E: Engine>(
    engine: &mut E,
    at: &mut E::View,
    alloc: Global,
    who: Who,
    command: &Command,
    reply: &mut Reply,
) -> Result<(), Closed>
    ensures lab { E.lab engine.new ≡ E.lab engine.old }
    ensures tells { OnOk result (E.tells engine.old at.old who command.now reply.new engine.new at.new) }
    ensures told { OnOk result (told_by E.lab E.seen engine.old at.old who command.now reply.new
        engine.new at.new) }
    ensures about { OnOk result (IsAbout (E.lab engine.old).ids (E.lab engine.old).roster reply.new) }
    ensures closed { IfErr result (λ _. E.may_close × (engine.new ≡ engine.old)
        × (at.new ≡ at.old) × (is_act command.now ≡ false)) }
{
    if command.is_act() {
        engine.act(at, alloc, who, command, reply);
        Ok(())
    } else {
        engine.view(at, alloc, who, command, reply)
    }
}
