//! Two labs that have the same nodes, participants, owners, links and registers. Such labs are called the same here.
//! Each law is the contract of a function that does nothing.
//!
//! A world is a network with its registers, its chosen moves, the number of its configuration, and the number of events
//! so far. A list of events is legal if each event is allowed in the world after the earlier ones. The audit of a
//! journal checks that its lines are those of a legal list. A journal is halted if a line couldn't be written to it.
ghost use Rattle.std.specs.Prelude.{◌≡◌, ◌<◌, ℕ, Bool, List, length};
ghost use Rattle.mml_lab.specs.declared.who.Who.{Who};
ghost use Rattle.mml_lab.specs.Rosters.{IsPrincipal, name_of, owns};
ghost use Rattle.mml_lab.specs.Labs.{LabValue, IsLab};
ghost use Rattle.mml_board.specs.declared.event.Event.{Event};
ghost use Rattle.mml_board.specs.Events.{is_legal};
ghost use Rattle.mml_board.specs.Lists.{world_in};
ghost use Rattle.mml_board.specs.World.{World};
ghost use Rattle.mml_policy.specs.declared.command.Command.{Command};
ghost use Rattle.mml_policy.specs.Rulings.{ruling};
ghost use Rattle.mml_codec.specs.declared.reply.Reply.TheVariants as replies;
ghost use Rattle.mml_codec.specs.Replies.{reply_line};
ghost use Rattle.mml_audit.specs.Audit.{audited};
ghost use Rattle.mml_journal.specs.EventLines.{said_by, event_line, IsEventOf};
ghost use Rattle.mml_lab_file.specs.Sameness.{IsSameLab};

/// A journal means the same in two labs that are the same. A line of a journal is read as the same event in both, or
/// has the same error, and an event is written as the same line. A list of events leads to the same world. The
/// participants have the same names, and own the same nodes.
#[tactic(auto, using(crate::proofs::SameLabsLemmas::said_alike, crate::proofs::SameLabsLemmas::line_alike, crate::proofs::SameLabsLemmas::world_alike, crate::proofs::SameLabsLemmas::name_alike, crate::proofs::SameLabsLemmas::owner_alike))]
pub fn same_labs_read_alike()
    ensures read { (a b : LabValue) (bytes : List ℕ) → IsSameLab a b →
        said_by a.ids a.roster bytes ≡ said_by b.ids b.roster bytes }
    ensures written { (a b : LabValue) (place before : ℕ) (e : Event) → IsSameLab a b →
        IsEventOf a.ids a.roster e →
        event_line a.ids a.roster place before e ≡ event_line b.ids b.roster place before e }
    ensures worlds { (a b : LabValue) (l : List Event) → IsLab a → IsLab b → IsSameLab a b →
        world_in a l ≡ world_in b l }
    ensures names { (a b : LabValue) (who : Who) → IsSameLab a b → IsPrincipal a.roster who →
        name_of a.roster who ≡ name_of b.roster who }
    ensures owners { (a b : LabValue) (who : Who) (i : ℕ) → IsSameLab a b →
        IsPrincipal a.roster who → i < length a.ids → owns a.roster who i ≡ owns b.roster who i }
{}

/// Audits over two labs that are the same, and allow equally many events, have the same result. The same bytes pass in
/// both and lead to the same world, or have the same error in the same line. In each world, an event is legal in both
/// labs or in neither.
#[tactic(auto, using(crate::proofs::SameAuditsLemmas::audits_alike, crate::proofs::SameAuditsLemmas::legal_alike))]
pub fn same_labs_audit_alike()
    ensures audit { (a b : LabValue) (bytes : List ℕ) → IsLab a → IsLab b → IsSameLab a b →
        a.events ≡ b.events → audited a bytes ≡ audited b bytes }
    ensures legal { (a b : LabValue) (w : World) (e : Event) → IsLab a → IsLab b → IsSameLab a b →
        is_legal a.roster w e ≡ is_legal b.roster w e }
{}

/// Suppose that two labs are the same, that the limit of events is the same in both, and that the journal is halted in
/// both or in neither. Then each command has the same ruling in both, in each world: the command is denied or refused
/// in both for the same reason, granted in both with the same effect, or answered in both with the same result. A hello
/// that is granted has the same reply line in both labs, even if their limits differ.
#[tactic(auto, using(crate::proofs::SameRulingsLemmas::rulings_alike, crate::proofs::SameRulingsLemmas::hellos_alike))]
pub fn same_labs_rule_alike()
    ensures rulings { (a b : LabValue) (limit : ℕ) (is_halted : Bool) (w : World) (who : Who)
        (c : Command) → IsLab a → IsLab b → IsSameLab a b →
        ruling a.ids a.roster limit is_halted w who c ≡ ruling b.ids b.roster limit is_halted w who c }
    ensures hello { (a b : LabValue) (who : Who) → IsSameLab a b → IsPrincipal a.roster who →
        reply_line a.ids a.roster (replies.Hello who) ≡ reply_line b.ids b.roster (replies.Hello who) }
{}
