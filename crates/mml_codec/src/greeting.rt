//! The rules of greeting: the result of a request before the policy judges it.
//!
//! An account is known on a connection from its granted hello to its bye.
ghost use Rattle.std.specs.Prelude.{◌≡◌, IfSome};
ghost use Rattle.mml_lab.specs.Rosters.{IsPrincipal};
ghost use Rattle.mml_codec.specs.Greetings.{denied, admitted, greeting, greeting_with, TakesPart};

use crate::reply::{Reply, put_in};
use crate::request::Request;
use mml_lab::{Roster, Who};
use mml_policy::{Command, Denial};

/// The result of a request on a connection. By the rules of greeting, an account is known on a connection from its
/// granted hello to its bye, and only then is a command judged.
#[derive(Drop)]
pub enum Greeting {
    /// A reply, and the participant that the connection is known as from then on.
    Answered { reply: Reply, known: Option<Who> },
    /// A command of a known participant, which is still to be judged.
    LeftToJudge { who: Who, command: Command },
}

/// The result of a request on a connection, without the reply, which is stored elsewhere.
#[derive(Clone, Copy)]
pub enum Greeted {
    /// The request is answered, and this is the participant that the connection is known as from then on.
    Known(Option<Who>),
    /// A command of a known participant, which is still to be judged.
    LeftToJudge { who: Who, command: Command },
}

/// Handles a request on a connection. `known` is the participant of the roster that the connection is known as, or
/// `None`. Answers a hello and a bye. A hello is denied if somebody is known already, or if nobody has its name and
/// key. Denies a command if nobody is known, and otherwise leaves it to the caller to judge.
pub fn greet(roster: &Roster, known: Option<Who>, request: Request) -> Greeting
    requires { IfSome known (IsPrincipal roster.now) }
    ensures greeting { result ≡ greeting roster.now known request }
    ensures about { TakesPart roster.now result }
{
    // A value for `greet_into` to replace. It is read only if it was replaced.
    let mut reply = Reply::Bye;
    match greet_into(roster, known, &request, &mut reply) {
        Greeted::Known(known) => Greeting::Answered { reply, known },
        Greeted::LeftToJudge { who, command } => Greeting::LeftToJudge { who, command },
    }
}

/// Handles a request on a connection, as `greet` does, and stores the reply in `reply`. `known` is the participant of
/// the roster that the connection is known as, or `None`. Answers a hello and a bye, and denies a command if nobody is
/// known. If somebody is known, leaves a command to the caller to judge, and doesn't change `reply`.
pub fn greet_into(
    roster: &Roster,
    known: Option<Who>,
    request: &Request,
    reply: &mut Reply,
) -> Greeted
    requires { IfSome known (IsPrincipal roster.now) }
    ensures greeting { greeting_with result reply.new ≡ greeting roster.now known request.now }
    ensures about { TakesPart roster.now (greeting_with result reply.new) }
{
    match (known, request) {
        (None, Request::Hello { name, key }) => {
            admit_into(roster.hello(name.as_str(), key.as_str()), reply)
        }
        (Some(who), Request::Hello { .. }) => deny_into(Denial::Greeted, Some(who), reply),
        (_, Request::Bye) => {
            put_in(reply, Reply::Bye);
            Greeted::Known(None)
        }
        (None, Request::Do(_)) => deny_into(Denial::NotGreeted, None, reply),
        (Some(who), Request::Do(command)) => Greeted::LeftToJudge {
            who,
            command: *command,
        },
    }
}

/// Answers a hello on a connection on which nobody is known: puts the reply into `reply`, and returns who is known from
/// then on. `found` is the participant who has the hello's name and key, or `None` if nobody has both; then the hello
/// is denied.
fn admit_into(found: Option<Who>, reply: &mut Reply) -> Greeted
    ensures { greeting_with result reply.new ≡ admitted found }
{
    match &found {
        Some(who) => {
            put_in(reply, Reply::Hello(*who));
            Greeted::Known(found)
        }
        None => deny_into(Denial::Unknown, None, reply),
    }
}

/// Puts the denial into `reply`. Returns `Known(known)`: the request is answered, and the connection is known as
/// before.
fn deny_into(denial: Denial, known: Option<Who>, reply: &mut Reply) -> Greeted
    ensures { greeting_with result reply.new ≡ denied denial known }
{
    put_in(reply, Reply::Deny(denial));
    Greeted::Known(known)
}
