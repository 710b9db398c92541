//! The participant who is known on a connection. Each law is the contract of a function that does nothing.
//!
//! An account is known on a connection from its granted hello to its bye. A session is one connection from its first
//! line to its end; a hall is the engine that answers the lines of numbered connections.
ghost use Rattle.std.specs.Prelude.{◌≡◌, ◌⊎◌, ℕ, List, Some, None, Ok};
ghost use Rattle.mml_lab.specs.declared.who.Who.{Who};
ghost use Rattle.mml_lab.specs.Labs.{LabValue};
ghost use Rattle.mml_lab.specs.Rosters.{RosterValue, IsRoster};
ghost use Rattle.mml_lab.specs.RosterMeaning.{IsKnownAs};
ghost use Rattle.mml_policy.specs.declared.command.Command.{Command};
ghost use Rattle.mml_board.specs.declared.denial.Denial.TheVariants as denial;
ghost use Rattle.mml_policy.specs.Rulings.{ruling};
ghost use Rattle.mml_codec.specs.declared.greeting.Greeting.TheVariants.{Answered, LeftToJudge};
ghost use Rattle.mml_codec.specs.declared.request.Request.TheVariants as requests;
ghost use Rattle.mml_codec.specs.declared.reply.Reply.{Reply};
ghost use Rattle.mml_codec.specs.declared.reply.Reply.TheVariants as reply;
ghost use Rattle.mml_codec.specs.Greetings.{greeting};
ghost use Rattle.mml_codec.specs.Lines.{request_in};
ghost use Rattle.mml_hall.specs.Turns as hall;
ghost use Rattle.mml_session.specs.Turns as session;
ghost use Rattle.mml_laws.specs.Greeted.{IsTold, IsDenied};

/// The rules of greeting. On a connection on which a participant is known, each hello is denied as `greeted`, and the
/// participant stays known. Commands are judged as those of this participant. On a connection on which nobody is known,
/// each command is denied as `not-greeted`, and a hello with nobody's name and key as `unknown`.
#[tactic(auto, using(crate::proofs::GreetedLemmas::nobody_greets))]
pub fn a_connection_is_known_as_one()
    ensures again { (r : RosterValue) (x : Who) (name key : List ℕ) →
        greeting r (Some x) (requests.Hello name key)
        ≡ Answered (reply.Deny denial.Greeted) (Some x) }
    ensures judged { (r : RosterValue) (x : Who) (c : Command) →
        greeting r (Some x) (requests.Do c) ≡ LeftToJudge x c }
    ensures unknown { (r : RosterValue) (c : Command) →
        greeting r None (requests.Do c) ≡ Answered (reply.Deny denial.NotGreeted) None }
    ensures nobody { (r : RosterValue) (name key : List ℕ) → IsRoster r →
        ((w : Who) → ¬ IsKnownAs r w name key) →
        greeting r None (requests.Hello name key) ≡ Answered (reply.Deny denial.Unknown) None }
{}

/// In a hall (the engine that answers the lines of numbered connections), a hello is denied as `greeted` on a
/// connection on which somebody is known. A command is denied as `not-greeted` if nobody is known on its connection.
/// Either may be refused as `memory` instead, and neither changes anything. If nothing goes wrong, a command on a
/// connection on which a participant is known is ruled on as a command of this participant.
pub fn a_hall_answers_by_who_is_known()
    ensures again { (lab : LabValue) (st : hall.State) (k : ℕ) (line : List ℕ) (out : hall.Outcome)
        (x : Who) (name key : List ℕ) → hall.known_on st k ≡ Some x →
        request_in line ≡ Ok (requests.Hello name key) → hall.Turn lab st k line out →
        IsTold st (reply.Deny denial.Greeted) out }
    ensures judged { (lab : LabValue) (st : hall.State) (k : ℕ) (line : List ℕ) (x : Who)
        (c : Command) → hall.known_on st k ≡ Some x → request_in line ≡ Ok (requests.Do c) →
        hall.plain_turn lab st k line
        ≡ hall.outcome_of st (ruling lab.ids lab.roster lab.events st.halted st.world x c) }
    ensures unknown { (lab : LabValue) (st : hall.State) (k : ℕ) (line : List ℕ)
        (out : hall.Outcome) (c : Command) → hall.known_on st k ≡ None →
        request_in line ≡ Ok (requests.Do c) → hall.Turn lab st k line out →
        IsTold st (reply.Deny denial.NotGreeted) out }
{}

/// In a session, a hello is denied as `greeted` if somebody is known on the connection. A command is denied as
/// `not-greeted` if nobody is known there. Either may be refused as `memory` instead, and neither changes anything. If
/// a participant is known, a command is answered as a command of this participant, who stays known, or is refused as
/// `memory`.
#[tactic(auto, using(crate::proofs::GreetedLemmas::session_again, crate::proofs::GreetedLemmas::session_judged, crate::proofs::GreetedLemmas::session_unknown))]
pub fn a_session_answers_by_who_is_known()
    ensures again { (lab : LabValue) (st next : session.Standing) (line : List ℕ) (r : Reply)
        (x : Who) (name key : List ℕ) → st.known ≡ Some x →
        request_in line ≡ Ok (requests.Hello name key) → session.Turn lab st line r next →
        IsDenied denial.Greeted st r next }
    ensures judged { (lab : LabValue) (st next : session.Standing) (line : List ℕ) (r : Reply)
        (x : Who) (c : Command) → st.known ≡ Some x → request_in line ≡ Ok (requests.Do c) →
        session.Turn lab st line r next →
        ((next.known ≡ Some x) × session.Told lab st.window x c r next.window)
        ⊎ session.Unread st r next }
    ensures unknown { (lab : LabValue) (st next : session.Standing) (line : List ℕ) (r : Reply)
        (c : Command) → st.known ≡ None → request_in line ≡ Ok (requests.Do c) →
        session.Turn lab st line r next → IsDenied denial.NotGreeted st r next }
{}
