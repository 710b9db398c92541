//! Answering a line: its reply, who is known afterwards, and what the window has seen then.
//!
//! A window is one session's view of the published events and board. It shows nothing any more once the house (the
//! run of the lab that all sessions share) has ended. An account is known on a connection from its granted hello to
//! its bye. When a command of a known account is answered, the window reads on. A view is what a see, a look or a
//! report shows; an act is a request for an event. A denial names the first condition of a request that doesn't hold;
//! a refusal has another reason. `setting` has what all sessions share: the runtime, the allocator, and the desk,
//! which decides acts.
ghost use Rattle.std.specs.Prelude.{◌≡◌, false, IfErr, IfSome, OnOk};
ghost use Rattle.mml_lab.specs.Rosters.{IsPrincipal};
ghost use Rattle.mml_policy.specs.declared.command.Command.TheVariants as command;
ghost use Rattle.mml_policy.specs.Acts.{is_act};
ghost use Rattle.mml_codec.specs.Replies.{IsAbout};
ghost use Rattle.mml_session.specs.Turns.{Told, Turn, standing};
ghost use Rattle.mml_session.specs.Ends.{IsView};

use crate::setting::Setting;
use mml_codec::{LineScratch, Refused, Reply, put_in, reply_of_done};
use mml_engine::{Closed as EngineClosed, Engine, answer_line};
use mml_journal::Sink;
use mml_lab::{Roster, Who};
use mml_policy::Command;
use mml_window::{Answer, Closed, House, SightFault, Window};
use std::alloc::Global;
use std::sync::Wait;

/// Answers one line of a connection. Puts the answer into `reply`, since a reply is too large to be returned without a
/// costly copy. `known` is the participant of the lab who has said hello on this connection, if anybody has; it is
/// updated if the line changes that. `scratch` is working memory for reading the line. Returns `Closed`, and puts no
/// reply, if a known participant asks for a view of a window that shows nothing any more.
#[tactic(auto, using(crate::proofs::EngineLemmas::turn_over, std::proofs::lemmas::Bool::Decides::nat_tests))]
pub(crate) fn answer_into<Rt: Wait, S: Sink + Drop, H: House>(
    setting: &Setting<'_, Rt, S, H>,
    window: &mut Window<H>,
    known: &mut Option<Who>,
    line: &[u8],
    scratch: &mut LineScratch,
    reply: &mut Reply,
) -> Result<(), Closed>
    requires principal { IfSome known.old (IsPrincipal H.lab.roster) }
    ensures principal { IfSome known.new (IsPrincipal H.lab.roster) }
    ensures turn { OnOk result (Turn H.lab (standing known.old window.old)
        line.now reply.new (standing known.new window.new)) }
    ensures about { OnOk result (IsAbout H.lab.ids H.lab.roster reply.new) }
    ensures closed { IfErr result (λ _. (known.new ≡ known.old) × (window.new ≡ window.old)
        × IsView (standing known.old window.old) line.now) }
{
    // A copy, since the engine of `answer_line` is borrowed mutably, and sessions share `setting`.
    let mut engine = Setting {
        rt: setting.rt,
        alloc: setting.alloc,
        desk: setting.desk,
    };
    match answer_line(
        &mut engine,
        window,
        setting.alloc,
        known,
        line,
        scratch,
        reply,
    ) {
        Ok(()) => Ok(()),
        Err(_) => Err(Closed),
    }
}

impl<'a, Rt: Wait, S: Sink + Drop, H: House> Engine for Setting<'a, Rt, S, H> {
    ghost use Rattle.mml_session.specs.Engines.{OverWindow};

    /// A window of the house.
    type View = Window<H>;

    ghost lab = { λ _. H.lab };

    ghost seen = { λ e v. v.seen };

    ghost tells = { OverWindow H.lab };

    ghost may_close = { Unit {0} };

    // Returns the roster of the lab, through the session's window `at`.
    fn roster<'r>(&'r self, at: &'r Window<H>) -> &'r Roster {
        at.roster()
    }

    // Puts the reply to a view (a `see`, `look` or `report`) for which `who` asks into `reply`. The session's window,
    // `at`, answers it from the published events, without the desk's lock. Returns `Closed` if the window shows nothing
    // any more.
    #[tactic(auto, using(crate::proofs::EngineLemmas::seen_told))]
    fn view(
        &mut self,
        at: &mut Window<H>,
        alloc: Global,
        who: Who,
        command: &Command,
        reply: &mut Reply,
    ) -> Result<(), EngineClosed> {
        match show(alloc, at, who, command, reply) {
            Ok(()) => Ok(()),
            Err(_) => Err(EngineClosed),
        }
    }

    // Passes an act of `who` (a command that asks for an event) to the desk, with the session's window `at`. Puts the
    // desk's answer into `reply`.
    #[tactic(auto, using(crate::proofs::EngineLemmas::seen_told, crate::proofs::TellingLemmas::granted_told, crate::proofs::TellingLemmas::denied_told, crate::proofs::TellingLemmas::refused_told, std::proofs::lemmas::Bool::Decides::nat_tests))]
    fn act(
        &mut self,
        at: &mut Window<H>,
        alloc: Global,
        who: Who,
        command: &Command,
        reply: &mut Reply,
    ) {
        let answer = self.desk.ask(self.rt, alloc, at, who, command);
        match answer {
            Answer::Granted {
                place,
                number,
                done,
            } => put_in(reply, reply_of_done(number, place, done)),
            Answer::Denied(denial) => put_in(reply, Reply::Deny(denial)),
            Answer::Refused(refusal) => put_in(reply, Reply::Refuse(Refused::from(refusal))),
        }
    }
}

/// Puts the window's reply to `command`, for which `who` asks, into `reply`. The command must ask for a view: it is a
/// `see`, `look` or `report`. Returns `Closed`, and puts no reply, if the window shows nothing any more.
#[inline(always)]
fn show<H: House>(
    alloc: Global,
    window: &mut Window<H>,
    who: Who,
    command: &Command,
    reply: &mut Reply,
) -> Result<(), Closed>
    requires { is_act command.now ≡ false }
    ensures told { OnOk result
        (Told H.lab window.old who command.now reply.new window.new) }
    ensures about { OnOk result (IsAbout H.lab.ids H.lab.roster reply.new) }
    ensures closed { IfErr result (λ _. window.new ≡ window.old) }
{
    match command {
        Command::See { node } => see(window, who, *node, reply),
        Command::Look { node } => look(alloc, window, who, *node, reply),
        Command::Report => report(alloc, window, who, reply),
        _ => unreachable!(),
    }
}

/// Puts the reply to a `see` of `who` into `reply`: the registers of the node with the identifier `node`, or a denial.
/// Returns `Closed`, and puts no reply, if the window shows nothing any more. `Window::see` allocates nothing, so it
/// can't run out of memory.
fn see<H: House>(
    window: &mut Window<H>,
    who: Who,
    node: u64,
    reply: &mut Reply,
) -> Result<(), Closed>
    ensures told { OnOk result
        (Told H.lab window.old who (command.See node) reply.new window.new) }
    ensures about { OnOk result (IsAbout H.lab.ids H.lab.roster reply.new) }
    ensures closed { IfErr result (λ _. window.new ≡ window.old) }
{
    match window.see(who, node) {
        Ok(see) => put_in(reply, Reply::See(see)),
        Err(SightFault::Denied(denial)) => put_in(reply, Reply::Deny(denial)),
        Err(SightFault::Memory) => unreachable!(),
        Err(SightFault::Closed) => return Err(Closed),
    }
    Ok(())
}

/// Puts the reply to a `look` of `who` into `reply`: the node with the identifier `node` as its owners see it, a
/// denial, or the refusal `memory`. Returns `Closed`, and puts no reply, if the window shows nothing any more.
fn look<H: House>(
    alloc: Global,
    window: &mut Window<H>,
    who: Who,
    node: u64,
    reply: &mut Reply,
) -> Result<(), Closed>
    ensures told { OnOk result
        (Told H.lab window.old who (command.Look node) reply.new window.new) }
    ensures about { OnOk result (IsAbout H.lab.ids H.lab.roster reply.new) }
    ensures closed { IfErr result (λ _. window.new ≡ window.old) }
{
    match window.look(alloc, who, node) {
        Ok(look) => put_in(reply, Reply::Look(look)),
        Err(SightFault::Denied(denial)) => put_in(reply, Reply::Deny(denial)),
        Err(SightFault::Memory) => put_in(reply, Reply::Refuse(Refused::Memory)),
        Err(SightFault::Closed) => return Err(Closed),
    }
    Ok(())
}

/// Puts the reply to a `report` for which `who` asks into `reply`: the report on the configuration, a denial, or the
/// refusal `memory`. Returns `Closed`, and puts no reply, if the window shows nothing any more.
fn report<H: House>(
    alloc: Global,
    window: &mut Window<H>,
    who: Who,
    reply: &mut Reply,
) -> Result<(), Closed>
    ensures told { OnOk result
        (Told H.lab window.old who command.Report reply.new window.new) }
    ensures about { OnOk result (IsAbout H.lab.ids H.lab.roster reply.new) }
    ensures closed { IfErr result (λ _. window.new ≡ window.old) }
{
    match window.report(alloc, who) {
        Ok(report) => put_in(reply, Reply::Report(report)),
        Err(SightFault::Denied(denial)) => put_in(reply, Reply::Deny(denial)),
        Err(SightFault::Memory) => put_in(reply, Reply::Refuse(Refused::Memory)),
        Err(SightFault::Closed) => return Err(Closed),
    }
    Ok(())
}
