//! Laws of the policy. Each is the contract of a function that does nothing.
//!
//! A world is a network with its registers, its chosen moves, the number of its configuration, and the number of events
//! so far. A grant chooses a move for a node, a release drops it, and a close applies all chosen moves at once. A fault
//! sets a node's registers, a link joins two nodes, and a cut removes a link. The registers of a node are its pointer p
//! and m, which is true or false. A node is privileged if some rule is enabled there. The rank of a node is its index
//! in the rising order of identifiers.
//!
//! A command asks to be shown something (a see, a look or a report), or for an event. A command is granted if all its
//! clauses, the conditions for it, hold; otherwise it is denied by the first that doesn't. This decision is the
//! verdict. The ruling is the verdict, or a refusal in place of a grant. Such a refusal means that the lab allows no
//! more events, or that the journal is halted, since a line couldn't be written to it. An event is legal if all clauses
//! of its request hold. A configuration is lawful (`IsLawful`) if each link joins two different nodes in both
//! directions, and pointers lead only to neighbours. `IsWorldOf ids w` says that the world w is lawful and has a node
//! for each of the identifiers ids.
ghost use Rattle.std.specs.Prelude.{◌≡◌, ◌≢◌, ◌<◌, ◌↔◌, ◌⊎◌, ℕ, Bool, List, Option, None, Some, true, false, length, slice_index};
ghost use Rattle.mml_rules.specs.declared.rule.Rule.{Rule};
ghost use Rattle.mml_rules.specs.Configuration.{Configuration, IsLawful};
ghost use Rattle.mml_rules.specs.Rules.{kind_of, enabled_kind, is_privileged};
ghost use Rattle.mml_lab.specs.declared.who.Who.{Who};
ghost use Rattle.mml_lab.specs.Rosters.{RosterValue, owners_of, owns};
ghost use Rattle.mml_board.specs.declared.event.Event.{Event};
ghost use Rattle.mml_board.specs.declared.event.Event.TheVariants as event;
ghost use Rattle.mml_board.specs.World.{World, size, configuration, chosen_at};
ghost use Rattle.mml_board.specs.Events.{is_legal};
ghost use Rattle.mml_policy.specs.declared.command.Asked.{Asked};
ghost use Rattle.mml_policy.specs.declared.command.Command.{Command};
ghost use Rattle.mml_policy.specs.declared.command.Command.TheVariants as command;
ghost use Rattle.mml_board.specs.declared.denial.Denial.{Denial};
ghost use Rattle.mml_policy.specs.declared.verdict.Verdict.TheVariants as verdicts;
ghost use Rattle.mml_policy.specs.Visible.{is_visible, IsVisible};
ghost use Rattle.mml_policy.specs.Verdicts.{verdict};
ghost use Rattle.mml_ids.specs.Ids.{IsTable, rank_in};
ghost use Rattle.mml_rules.specs.Naming.{IsRenamed};
ghost use Rattle.mml_rules.specs.UnderNames.{IsEmptyElsewhere};
ghost use Rattle.mml_rules.specs.Network.{configuration_of};
ghost use Rattle.mml_lab.specs.Labs.{LabValue, IsLab};
ghost use Rattle.mml_policy.specs.Identifiers.{with_identifiers};
ghost use Rattle.mml_board.specs.declared.denial.Denial.TheVariants.{Hidden};
ghost use Rattle.mml_policy.specs.declared.ruling.Ruling.TheVariants.{Seen, Denied};
ghost use Rattle.mml_policy.specs.declared.see.See.{See};
ghost use Rattle.mml_lab.specs.declared.who.Who.TheVariants as who;
ghost use Rattle.mml_policy.specs.About.{IsRuled};
ghost use Rattle.mml_policy.specs.Rulings.{ruling, event_of, after_ruling};
ghost use Rattle.mml_policy.specs.Asking.{asker, command_of, id_of, asked_of};
ghost use Rattle.mml_policy.specs.Alike.{Alike, IsWorldOf};
ghost use Rattle.mml_policy.specs.Meaning.{MayMove, DeniesMove, MaySee, MayLook, MayClose, MayFault, MayLink, MayCut, MayRelease, ShowsWhatIsVisible};
ghost use Rattle.mml_policy.specs.Denied.{IsDecided, DeniesClose, DeniesFault, DeniesLink, DeniesCut, DeniesRelease, DeniesReport};
ghost use Rattle.mml_policy.specs.Acts.{is_act};
ghost use Rattle.mml_policy.specs.Shown.{see_of, look_of};

/// A node is visible to the teacher, to its owners and to the owners of its neighbours, and to no one else.
#[tactic(auto, using(crate::proofs::VisibleLemmas::visible_means))]
pub fn visible_means_facts()
    ensures { (r : RosterValue) (c : Configuration) (x : Who) (i : ℕ) → IsLawful c →
        (is_visible r c x i ≡ true) ↔ IsVisible r c x i }
{}

/// A move is granted exactly if four facts hold. The asker owns the node, and the number in the request is that of the
/// current configuration. No move is chosen for the node, and the rule may be applied there. Otherwise the move is
/// denied by the first of these facts that doesn't hold.
pub fn a_move_takes_four_facts()
    ensures granted { (ids : List ℕ) (r : RosterValue) (w : World) (x : Who) (id : ℕ)
        (asked : Asked) (at : ℕ) (e : Event) → IsLawful (configuration w) →
        (verdict ids r w x (command.Move id asked at) ≡ verdicts.Grant e) ↔
        ((s : ℕ) × (i : ℕ) × (q : Rule) × (e ≡ event.Grant s i q)
        × MayMove ids r w x id asked at s i q) }
    ensures denied { (ids : List ℕ) (r : RosterValue) (w : World) (x : Who) (id : ℕ)
        (asked : Asked) (at : ℕ) (d : Denial) → IsLawful (configuration w) →
        (verdict ids r w x (command.Move id asked at) ≡ verdicts.Deny d) ↔
        DeniesMove ids r w x id asked at d }
{}

/// A see is granted exactly if some node has the identifier that it names, and this node is visible to the asker.
#[tactic(auto, using(crate::proofs::VisibleLemmas::visible_means, std::proofs::lemmas::Bool::Decides::nat_tests))]
pub fn a_see_takes_a_visible_node()
    ensures { (ids : List ℕ) (r : RosterValue) (w : World) (x : Who) (id : ℕ) →
        IsLawful (configuration w) →
        (verdict ids r w x (command.See id) ≡ verdicts.Show) ↔ MaySee ids r w x id }
{}

/// A see is answered exactly if some node has the identifier that it names, and this node is visible to the asker. The
/// answer has the node's registers in the world `w`, and the number of the configuration. Otherwise the see is denied
/// as hidden.
#[tactic(auto, using(crate::proofs::VisibleLemmas::visible_means, std::proofs::lemmas::Bool::Decides::nat_tests))]
pub fn a_see_shows_the_registers()
    ensures seen { (ids : List ℕ) (r : RosterValue) (limit : ℕ) (is_halted : Bool) (w : World)
        (x : Who) (id : ℕ) (s : See) → IsLawful (configuration w) →
        (ruling ids r limit is_halted w x (command.See id) ≡ Seen s) ↔
        ((i : ℕ) × (rank_in ids id ≡ Some i) × IsVisible r (configuration w) x i
        × (s ≡ see_of w i)) }
    ensures hidden { (ids : List ℕ) (r : RosterValue) (limit : ℕ) (is_halted : Bool) (w : World)
        (x : Who) (id : ℕ) → IsLawful (configuration w) → ¬ MaySee ids r w x id →
        ruling ids r limit is_halted w x (command.See id) ≡ Denied Hidden }
{}

/// A look is granted exactly if some node has the identifier that it names, and the asker owns this node or is the
/// teacher.
#[tactic(auto, using(std::proofs::lemmas::Bool::Decides::nat_tests))]
pub fn a_look_takes_an_owner()
    ensures { (ids : List ℕ) (r : RosterValue) (w : World) (x : Who) (id : ℕ) →
        (verdict ids r w x (command.Look id) ≡ verdicts.Show) ↔ MayLook ids r x id }
{}

/// A look shows the registers of its node and of the neighbours, and each of these nodes is visible to anyone who may
/// look.
pub fn a_look_shows_what_is_visible()
    ensures { (r : RosterValue) (w : World) (x : Who) (i : ℕ) → IsLawful (configuration w) →
        (x ≡ who.Teacher) ⊎ (owns r x i ≡ true) → ShowsWhatIsVisible r w x (look_of w i) }
{}

/// A close is granted exactly if the teacher asks and some move is chosen. Otherwise the close is denied by the first
/// of the two facts that doesn't hold.
pub fn a_close_takes_a_chosen_node()
    ensures { (ids : List ℕ) (r : RosterValue) (w : World) (x : Who) →
        IsDecided ids r w x command.Close (MayClose w) (DeniesClose w x) }
{}

/// A fault is granted exactly if three facts hold. The teacher asks, some node has the identifier that the fault names,
/// and the node's new pointer is null or a neighbour. Otherwise the fault is denied by the first of the three facts
/// that doesn't hold.
pub fn a_fault_takes_a_neighbour()
    ensures { (ids : List ℕ) (r : RosterValue) (w : World) (x : Who) (id : ℕ) (p : Option ℕ) (m : Bool) →
        IsDecided ids r w x (command.Fault id p m) (MayFault ids w id p m) (DeniesFault ids w x id p) }
{}

/// A link is granted exactly if the teacher asks, both identifiers are those of nodes, and these nodes are different
/// and aren't linked. Otherwise the link is denied by the first of these facts that doesn't hold.
#[tactic(auto, using(std::proofs::lemmas::Bool::Decides::nat_tests))]
pub fn a_link_takes_two_unlinked_nodes()
    ensures { (ids : List ℕ) (r : RosterValue) (w : World) (x : Who) (first second : ℕ) →
        IsDecided ids r w x (command.Link first second) (MayLink ids w first second) (DeniesLink ids w x first second) }
{}

/// A cut is granted exactly if the teacher asks, both identifiers are those of nodes, and these nodes are linked.
/// Otherwise the cut is denied by the first of the three facts that doesn't hold.
#[tactic(auto, using(std::proofs::lemmas::Bool::Decides::nat_tests))]
pub fn a_cut_takes_two_linked_nodes()
    ensures { (ids : List ℕ) (r : RosterValue) (w : World) (x : Who) (first second : ℕ) →
        IsDecided ids r w x (command.Cut first second) (MayCut ids w first second) (DeniesCut ids w x first second) }
{}

/// A release is granted exactly if the teacher asks, some node has the identifier that the release names, and the node
/// has a chosen move. Otherwise the release is denied by the first of the three facts that doesn't hold.
#[tactic(auto, using(std::proofs::lemmas::Bool::Decides::nat_tests))]
pub fn a_release_takes_a_chosen_node()
    ensures { (ids : List ℕ) (r : RosterValue) (w : World) (x : Who) (id : ℕ) →
        IsDecided ids r w x (command.Release id) (MayRelease ids w id) (DeniesRelease ids w x id) }
{}

/// The verdict on a command that asks for an event is never `Show`. The verdict on a command that asks to be shown
/// something never grants an event.
pub fn no_act_is_shown_and_no_view_is_granted()
    ensures acts { (ids : List ℕ) (r : RosterValue) (w : World) (x : Who) (c : Command) →
        is_act c ≡ true → verdict ids r w x c ≢ verdicts.Show }
    ensures views { (ids : List ℕ) (r : RosterValue) (w : World) (x : Who) (c : Command) (e : Event) →
        is_act c ≡ false → verdict ids r w x c ≢ verdicts.Grant e }
{}

/// An event that is granted by the verdict on a command is legal.
#[tactic(auto, using(crate::proofs::VerdictLemmas::granted_legal))]
pub fn granted_events_are_legal()
    ensures { (ids : List ℕ) (r : RosterValue) (w : World) (x : Who) (c : Command) (e : Event) →
        length ids ≡ size w → verdict ids r w x c ≡ verdicts.Grant e → is_legal r w e ≡ true }
{}

/// An event is legal exactly if the verdict grants it to its asker. The asker of a move is its student, who asks with
/// the number of the current configuration. The asker of any other event is the teacher. So a list of events can be
/// checked by asking for verdicts.
#[tactic(auto, using(crate::proofs::AskingLemmas::granted_iff))]
pub fn legal_events_are_granted()
    ensures { (ids : List ℕ) (r : RosterValue) (w : World) (e : Event) →
        IsTable ids → IsWorldOf ids w → (is_legal r w e ≡ true) ↔
        (verdict ids r w (asker e) (command_of ids w e) ≡ verdicts.Grant e) }
{}

/// Let a node be privileged and have no chosen move. Some rule of the kind that is enabled there is granted to each
/// owner who asks for it with the number of the current configuration. A look shows this kind.
#[tactic(auto, using(crate::proofs::AskingLemmas::privileged_granted))]
pub fn privileged_nodes_are_granted()
    ensures { (ids : List ℕ) (r : RosterValue) (w : World) (i : ℕ) → IsTable ids →
        IsWorldOf ids w → i < size w → is_privileged (configuration w) i ≡ true →
        chosen_at w.chosen i ≡ None →
        (rule : Rule) × (enabled_kind (configuration w) i ≡ Some (kind_of rule)) ×
        ((s : ℕ) → owns r (Who.Student s) i ≡ true →
        verdict ids r w (Who.Student s)
        (command.Move (id_of ids i) (asked_of ids rule) w.number)
        ≡ verdicts.Grant (event.Grant s i rule)) }
{}

/// The reply to a student depends on nothing that is hidden from the student. If two worlds look the same to a student
/// (`Alike`), each command of the student has the same ruling in both. The worlds after the command look the same to
/// the student again.
#[tactic(auto, using(crate::proofs::AlikeLemmas::same_ruling, crate::proofs::AlikeLemmas::alike_afterwards))]
pub fn hidden_values_change_no_ruling()
    ensures ruling { (ids : List ℕ) (r : RosterValue) (limit : ℕ) (is_halted : Bool)
        (w v : World) (s : ℕ)
        (c : Command) → IsWorldOf ids w → IsWorldOf ids v → Alike r s w v →
        ruling ids r limit is_halted w (who.Student s) c ≡ ruling ids r limit is_halted v (who.Student s) c }
    ensures afterwards { (ids : List ℕ) (r : RosterValue) (limit : ℕ) (is_halted : Bool)
        (w v : World) (s : ℕ)
        (c : Command) → IsWorldOf ids w → IsWorldOf ids v → Alike r s w v →
        Alike r s (after_ruling w (ruling ids r limit is_halted w (who.Student s) c))
        (after_ruling v (ruling ids r limit is_halted v (who.Student s) c)) }
{}

/// A report is granted exactly if the teacher asks, and denied as `NotTeacher` exactly if a student does.
#[tactic(auto, using(std::proofs::lemmas::Bool::Decides::nat_tests))]
pub fn a_report_takes_the_teacher()
    ensures shown { (ids : List ℕ) (r : RosterValue) (w : World) (x : Who) →
        (verdict ids r w x command.Report ≡ verdicts.Show) ↔ (x ≡ who.Teacher) }
    ensures denied { (ids : List ℕ) (r : RosterValue) (w : World) (x : Who) (d : Denial) →
        (verdict ids r w x command.Report ≡ verdicts.Deny d) ↔ DeniesReport x d }
{}

/// An event happens only if it is legal, the limit of events isn't reached and the journal isn't halted.
#[tactic(auto, using(crate::proofs::RulingsLemmas::legal_event))]
pub fn events_that_happen_are_legal()
    ensures { (ids : List ℕ) (r : RosterValue) (limit : ℕ) (is_halted : Bool) (w : World) (x : Who)
        (c : Command) (e : Event) → length ids ≡ size w → event_of (ruling ids r limit is_halted w x c) ≡ Some e →
        (is_legal r w e ≡ true) × (w.place < limit) × (is_halted ≡ false) }
{}

/// A ruling names only nodes of the lab: those that it shows, those that they point at, and those of an event's effect.
/// The law says nothing about the set of nodes that a close moves.
#[tactic(auto, using(crate::proofs::AboutLemmas::ruled_is))]
pub fn rulings_name_nodes()
    ensures { (ids : List ℕ) (r : RosterValue) (limit : ℕ) (is_halted : Bool) (w : World) (x : Who)
        (c : Command) → IsWorldOf ids w → IsRuled ids (ruling ids r limit is_halted w x c) }
{}

/// The identifiers of a lab are names of its nodes in the order of their ranks. So the rules do the same with
/// identifiers as with ranks, in the lab's network and in each world with the lab's nodes. A number that is no
/// identifier has no link and no pointer, and its m is false.
#[tactic(auto, using(crate::proofs::IdentifiersLemmas::identifiers_rename, crate::proofs::IdentifiersLemmas::empty_elsewhere))]
pub fn identifiers_are_names()
    ensures lab { (lab : LabValue) → IsLab lab →
        IsRenamed (slice_index lab.ids) (configuration_of lab.network)
        (with_identifiers lab.ids (configuration_of lab.network)) }
    ensures world { (ids : List ℕ) (w : World) → IsTable ids → IsWorldOf ids w →
        IsRenamed (slice_index ids) (configuration w) (with_identifiers ids (configuration w)) }
    ensures lab_elsewhere { (lab : LabValue) → IsLab lab →
        IsEmptyElsewhere (slice_index lab.ids) (configuration_of lab.network)
        (with_identifiers lab.ids (configuration_of lab.network)) }
    ensures world_elsewhere { (ids : List ℕ) (w : World) → IsTable ids → IsWorldOf ids w →
        IsEmptyElsewhere (slice_index ids) (configuration w) (with_identifiers ids (configuration w)) }
{}

/// If the nodes get other names in the same order, and each name has the owners of its node, a node is visible to the
/// same participants. `f` maps a node to its new name.
#[tactic(auto, using(crate::proofs::VisibleNamesLemmas::visible_named))]
pub fn visible_keeps_under_names()
    ensures { (f : ℕ → ℕ) (c d : Configuration) (r s : RosterValue) (x : Who) (i : ℕ) →
        IsRenamed f c d → ((j : ℕ) → j < c.size → owners_of s (f j) ≡ owners_of r j) →
        i < c.size → is_visible s d x (f i) ≡ is_visible r c x i }
{}
