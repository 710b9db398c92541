//! How a house (one run of a lab) halts. Each law is the contract of a function that does nothing.
//!
//! The journal is halted if a line couldn't be written to it. From then on nothing is granted. The book of a house has
//! its list of events and its journal. An act is a request for an event. A sink is the destination of the journal's
//! bytes, and a put is a write to it. A window is what the sessions of a seat have seen of the events.
ghost use Rattle.std.specs.Prelude.{◌≡◌, ◌⊎◌, ◌<◌, ℕ, List, Option, true, false};
ghost use Rattle.std.specs.List.{AllByRecursion};
ghost use Rattle.mml_lab.specs.declared.who.Who.{Who};
ghost use Rattle.mml_lab.specs.Labs.{LabValue};
ghost use Rattle.mml_policy.specs.declared.command.Command.{Command};
ghost use Rattle.mml_policy.specs.declared.refusal.Refusal.TheVariants.{Journal};
ghost use Rattle.mml_window.specs.declared.answer.Answer.{Answer};
ghost use Rattle.mml_window.specs.declared.answer.Answer.TheVariants.{Refused};
ghost use Rattle.mml_window.specs.Answers.{Decides, AnswersAtPresent};
ghost use Rattle.mml_window.specs.Books.{BookValue};
ghost use Rattle.mml_window.specs.Windows.{WindowValue};
ghost use Rattle.mml_board.specs.declared.event.Event.{Event};
ghost use Rattle.mml_codec.specs.declared.reply.Reply.{Reply};
ghost use Rattle.mml_window.specs.declared.log.Log.{Log};
ghost use Rattle.mml_window.specs.Logs.{IsLogFrom};
ghost use Rattle.mml_laws.specs.Halting.{Act, DecidesEach, IsNoGrant};
ghost use Rattle.mml_laws.specs.Served.{AreServed, NoneHaltedIn};

/// The first refusal for `journal` halts a house for good. After that refusal, the house's book (its list of events and
/// its journal) is halted. The book never changes again, and grants nothing. A book halts only by such a refusal, when
/// a put to its sink fails.
#[tactic(auto, using(std::proofs::lemmas::Bool::Decides::nat_tests, crate::proofs::HaltingLemmas::all_stay))]
pub fn a_house_halts_for_good<S>()
    ensures refused { (lab : LabValue) (failures : S → ℕ) (old new last : BookValue S) (who : Who)
        (command : Command) (acts : List Act) (answers : List Answer) →
        Decides lab failures old who command (Refused Journal) new →
        DecidesEach lab failures new acts answers last →
        (new.halted ≡ true) × (last ≡ new) × AllByRecursion IsNoGrant answers }
    ensures stays { (lab : LabValue) (failures : S → ℕ) (old new : BookValue S)
        (acts : List Act) (answers : List Answer) → old.halted ≡ true →
        DecidesEach lab failures old acts answers new →
        (new ≡ old) × AllByRecursion IsNoGrant answers }
    ensures only { (lab : LabValue) (failures : S → ℕ) (old new : BookValue S) (who : Who)
        (command : Command) (answer : Answer) → Decides lab failures old who command answer new →
        new.halted ≡ true →
        (old.halted ≡ true) ⊎ ((answer ≡ Refused Journal) × (failures old.sink < failures new.sink)) }
    ensures present { (lab : LabValue) (contents : S → Option (List ℕ)) (failures : S → ℕ)
        (old new : WindowValue) (who : Who) (command : Command)
        (a : AnswersAtPresent lab contents failures old who command (Refused Journal) new) →
        (a.after.halted ≡ true) × (a.after.events ≡ a.before.events) }
{}

/// Suppose that the journal of a house isn't halted at its end. Then no request was refused because the journal was
/// halted: no reply of any session of any window is the refusal `journal`. The house may have begun with earlier events.
pub fn a_house_that_ends_unhalted_refused_nothing_as_journal<S>()
    ensures { (lab : LabValue) (begun : List Event) (first : ℕ) (contents : S → Option (List ℕ))
        (sessions : List (List (List Reply))) (windows : List WindowValue) (log : Log S) →
        AreServed lab begun sessions windows → IsLogFrom first lab contents windows log →
        log.halted ≡ false → NoneHaltedIn sessions }
{}
