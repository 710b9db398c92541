//! How a ruling on a command follows from its verdict. Each law is the contract of a function that does nothing.
//!
//! A clause is a condition for a command. The verdict on a command is its denial, or what it may do if all its clauses
//! hold. The ruling is the verdict, or a refusal in place of a grant. Such a refusal means that the lab allows no more
//! events, or that the journal is halted. A world is a network with its registers, its chosen moves, the number of its
//! configuration, and the number of events so far. The journal is halted if a line couldn't be written to it.
ghost use Rattle.std.specs.Prelude.{◌≡◌, ◌↔◌, ◌<◌, ◌≤◌, ℕ, Bool, true, false, List};
ghost use Rattle.mml_lab.specs.declared.who.Who.{Who};
ghost use Rattle.mml_lab.specs.Rosters.{RosterValue};
ghost use Rattle.mml_board.specs.declared.done.Done.{Done};
ghost use Rattle.mml_board.specs.declared.event.Event.{Event};
ghost use Rattle.mml_board.specs.World.{World};
ghost use Rattle.mml_board.specs.Events.{done_by};
ghost use Rattle.mml_policy.specs.declared.command.Command.{Command};
ghost use Rattle.mml_board.specs.declared.denial.Denial.{Denial};
ghost use Rattle.mml_policy.specs.declared.ruling.Ruling.TheVariants as rulings;
ghost use Rattle.mml_policy.specs.declared.verdict.Verdict.TheVariants as verdicts;
ghost use Rattle.mml_policy.specs.Rulings.{ruling};
ghost use Rattle.mml_policy.specs.Verdicts.{verdict};
ghost use Rattle.mml_laws.specs.Ruled.{IsGrantable, IsShown};

/// The verdict on a command depends on the world; the ruling depends also on the limit and the journal. A command is
/// denied exactly if the verdict denies it, for the same reason, and shows something exactly if the verdict says so. If
/// the verdict grants it, the ruling is `full` if the limit is reached, and otherwise `journal` if the journal is
/// halted. In any other case the ruling grants it, with its effect in that world.
#[tactic(auto, using(crate::proofs::RuledLemmas::ruled_denied, crate::proofs::RuledLemmas::ruled_shown, crate::proofs::RuledLemmas::ruled_full, crate::proofs::RuledLemmas::ruled_journal, crate::proofs::RuledLemmas::ruled_granted))]
pub fn the_ruling_is_the_verdicts()
    ensures denied { (ids : List ℕ) (r : RosterValue) (limit : ℕ) (is_halted : Bool) (w : World)
        (x : Who) (c : Command) (d : Denial) →
        (ruling ids r limit is_halted w x c ≡ rulings.Denied d) ↔
        (verdict ids r w x c ≡ verdicts.Deny d) }
    ensures shown { (ids : List ℕ) (r : RosterValue) (limit : ℕ) (is_halted : Bool) (w : World)
        (x : Who) (c : Command) →
        IsShown (ruling ids r limit is_halted w x c) ↔ (verdict ids r w x c ≡ verdicts.Show) }
    ensures full { (ids : List ℕ) (r : RosterValue) (limit : ℕ) (is_halted : Bool) (w : World)
        (x : Who) (c : Command) →
        (ruling ids r limit is_halted w x c ≡ rulings.Full) ↔
        (IsGrantable ids r w x c × (limit ≤ w.place)) }
    ensures journal { (ids : List ℕ) (r : RosterValue) (limit : ℕ) (is_halted : Bool) (w : World)
        (x : Who) (c : Command) →
        (ruling ids r limit is_halted w x c ≡ rulings.Journal) ↔
        (IsGrantable ids r w x c × (w.place < limit) × (is_halted ≡ true)) }
    ensures granted { (ids : List ℕ) (r : RosterValue) (limit : ℕ) (is_halted : Bool) (w : World)
        (x : Who) (c : Command) (e : Event) (done : Done) →
        (ruling ids r limit is_halted w x c ≡ rulings.Granted e done) ↔
        ((verdict ids r w x c ≡ verdicts.Grant e) × (w.place < limit) × (is_halted ≡ false)
        × (done ≡ done_by w e)) }
{}
