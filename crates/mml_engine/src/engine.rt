//! Engines, which answer commands.
//!
//! An act is a command that asks for an event. A view is a command that only asks to be shown something: a see, a look
//! or a report. An account is known on a connection from its granted hello to its bye.
use mml_codec::Reply;
use mml_lab::{Roster, Who};
use mml_policy::Command;
use std::alloc::Global;

/// The error of a view that gets no reply, since the engine is closed: it shows nothing any more.
#[derive(Clone, Copy, PartialEq, Eq)]
pub struct Closed;

/// A server's state, which answers the commands of known participants. The reply to a view depends on the events that
/// were published before it, and the reply to an act on all events.
pub trait Engine {
    ghost use Rattle.std.specs.Prelude.{◌≡◌, true, false, List, OnOk, IfErr};
    ghost use Rattle.mml_lab.specs.declared.who.Who.{Who};
    ghost use Rattle.mml_lab.specs.Labs.{LabValue};
    ghost use Rattle.mml_board.specs.declared.event.Event.{Event};
    ghost use Rattle.mml_policy.specs.declared.command.Command.{Command};
    ghost use Rattle.mml_policy.specs.Acts.{is_act};
    ghost use Rattle.mml_codec.specs.declared.reply.Reply.{Reply};
    ghost use Rattle.mml_codec.specs.Replies.{IsAbout};
    ghost use Rattle.mml_engine.specs.Told.{Told};

    /// The part of the engine that belongs to one session.
    type View;

    // The lab whose events the engine has.
    ghost lab: { Self → LabValue };

    // The events that a session has seen.
    ghost seen: { Self → Self.View → List Event };

    // The effect of a command. The arguments are the engine and the session's part of it before the command, the asker,
    // the command, the reply, and the engine and the session's part afterwards.
    ghost tells: { Self → Self.View → Who → Command → Reply → Self → Self.View → Type 0 };

    // What holds if the engine shows nothing any more.
    ghost may_close: { Type 0 };

    /// Returns the roster of the engine's lab. `at` is the part of the engine that belongs to the asking session.
    fn roster<'r>(&'r self, at: &'r Self::View) -> &'r Roster
        ensures { result.now ≡ (lab self.now).roster };

    /// Puts the reply to a view of `who` into `reply`. The command must be a view. `at` is the part of the engine that
    /// belongs to the session. The reply is the refusal `memory` if memory runs out. Returns `Closed`, and puts no
    /// reply, if the engine shows nothing any more.
    fn view(
        &mut self,
        at: &mut Self::View,
        alloc: Global,
        who: Who,
        command: &Command,
        reply: &mut Reply,
    ) -> Result<(), Closed>
        requires { is_act command.now ≡ false }
        ensures lab { lab self.new ≡ lab self.old }
        ensures tells { OnOk result (tells self.old at.old who command.now reply.new self.new at.new) }
        ensures told { OnOk result (Told (lab self.old) (seen self.old at.old) who command.now reply.new
            (seen self.new at.new)) }
        ensures about { OnOk result (IsAbout (lab self.old).ids (lab self.old).roster reply.new) }
        ensures closed { IfErr result (λ _. may_close × (self.new ≡ self.old) × (at.new ≡ at.old)) };

    /// Puts the reply to an act of `who` into `reply`. The command must be an act. `at` is the part of the engine that
    /// belongs to the session. If the act is granted, its event happens. Otherwise no event happens, and the reply is a
    /// denial or a refusal. An act that isn't denied is refused if memory runs out, the journal takes no more lines, or
    /// the lab allows no more events.
    fn act(
        &mut self,
        at: &mut Self::View,
        alloc: Global,
        who: Who,
        command: &Command,
        reply: &mut Reply,
    )
        requires { is_act command.now ≡ true }
        ensures lab { lab self.new ≡ lab self.old }
        ensures tells { tells self.old at.old who command.now reply.new self.new at.new }
        ensures told { Told (lab self.old) (seen self.old at.old) who command.now reply.new
            (seen self.new at.new) }
        ensures about { IsAbout (lab self.old).ids (lab self.old).roster reply.new };
}
