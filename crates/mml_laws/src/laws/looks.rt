//! What commands show. Each law is the contract of a function that does nothing.
//!
//! The registers of a node are its pointer p and m, which is true or false. A world is a network with its registers,
//! its chosen moves, the number of its configuration, and the number of events so far. The ruling on a command is what
//! it shows, or why it is denied or refused, or the event that it grants.
ghost use Rattle.std.specs.Prelude.{◌≡◌, ◌↔◌, ◌⊎◌, ℕ, Bool, true, Some, List};
ghost use Rattle.mml_ids.specs.Ids.{rank_in};
ghost use Rattle.mml_rules.specs.Configuration.{IsLawful};
ghost use Rattle.mml_rules.specs.Network.{registers_at};
ghost use Rattle.mml_lab.specs.declared.who.Who.{Who};
ghost use Rattle.mml_lab.specs.declared.who.Who.TheVariants as who;
ghost use Rattle.mml_lab.specs.Rosters.{RosterValue, owns};
ghost use Rattle.mml_board.specs.World.{World, configuration};
ghost use Rattle.mml_policy.specs.declared.command.Command.TheVariants as command;
ghost use Rattle.mml_policy.specs.declared.look.Look.{Look};
ghost use Rattle.mml_policy.specs.declared.see.See.{See};
ghost use Rattle.mml_policy.specs.declared.ruling.Ruling.TheVariants.{Seen, Looked};
ghost use Rattle.mml_policy.specs.Rulings.{ruling};
ghost use Rattle.mml_policy.specs.Shown.{look_of};
ghost use Rattle.mml_stable.specs.Reports.{report_of};
ghost use Rattle.mml_laws.specs.Looks.{IsWholeLook};

/// A look shows a node exactly if the command has that node's identifier, and one of the node's owners or the teacher
/// asks. The look shows all of the node: its registers, the number of the configuration, and the kinds of the chosen
/// move and of the enabled rule, if there are any. The look also shows exactly the linked nodes with their registers,
/// in rising order.
#[tactic(auto, using(std::proofs::lemmas::Bool::Decides::nat_tests, std::proofs::lemmas::Bool::or_left, std::proofs::lemmas::Bool::or_right, crate::proofs::LooksLemmas::look_whole))]
pub fn a_look_is_whole()
    ensures answered { (ids : List ℕ) (r : RosterValue) (limit : ℕ) (is_halted : Bool) (w : World)
        (x : Who) (id : ℕ) (l : Look) →
        (ruling ids r limit is_halted w x (command.Look id) ≡ Looked l) ↔
        ((i : ℕ) × (rank_in ids id ≡ Some i) × ((x ≡ who.Teacher) ⊎ (owns r x i ≡ true))
        × (l ≡ look_of w i)) }
    ensures whole { (w : World) (i : ℕ) → IsLawful (configuration w) →
        IsWholeLook w i (look_of w i) }
{}

/// The reply to a command shows the world in which the command is ruled on. A see shows the node that it names, and
/// that node's registers. A look shows the node that it names. A see, a look and a report show the number of that
/// world's configuration.
#[tactic(auto, using(std::proofs::lemmas::Bool::Decides::nat_tests, std::proofs::lemmas::Bool::or_left, std::proofs::lemmas::Bool::or_right, mml_policy::proofs::SeenLemmas::see_shows))]
pub fn what_is_shown_is_of_the_present()
    ensures see { (ids : List ℕ) (r : RosterValue) (limit : ℕ) (is_halted : Bool) (w : World)
        (x : Who) (id : ℕ) (s : See) → IsLawful (configuration w) →
        ruling ids r limit is_halted w x (command.See id) ≡ Seen s →
        (s.at ≡ w.number) × (rank_in ids id ≡ Some s.node)
        × (s.regs ≡ registers_at w.network.registers s.node) }
    ensures look { (ids : List ℕ) (r : RosterValue) (limit : ℕ) (is_halted : Bool) (w : World)
        (x : Who) (id : ℕ) (l : Look) →
        ruling ids r limit is_halted w x (command.Look id) ≡ Looked l →
        (l.at ≡ w.number) × (rank_in ids id ≡ Some l.node) }
    ensures report { (w : World) → (report_of w).at ≡ w.number }
{}
