//! Laws of self-stabilisation: how many moves and rounds a run has, and how it ends. Each is the contract of a function
//! that does nothing.
//!
//! A world is a network with its registers, its chosen moves, the number of its configuration, and the number of events
//! so far. The registers of a node are its pointer p and m, which is true or false. A node is privileged if some rule
//! is enabled there. A list of events is legal if each event is allowed in the world after the earlier ones. A grant
//! chooses a move for a node, a release drops it, and a close applies all chosen moves at once, which is a step. A
//! fault sets a node's registers, a link joins two nodes, and a cut removes a link.
//!
//! A round is a list of events in which each node has its turn: at some point it isn't privileged, or a close applies
//! its move. The potential of a node is a number that is computed from a configuration. The sum of all potentials falls
//! in each step. A pair is two nodes that point at each other. The pairs are a maximal matching if each link has an end
//! that is in a pair. A configuration is lawful (`IsLawful`) if each link joins two different nodes in both directions,
//! and pointers lead only to neighbours. A world is lawful (`IsWorld`) if its configuration is, and the guards of its
//! chosen moves hold. `Rounds k w es` says that the list es, which begins in the world w, begins with k rounds, one
//! after another.
ghost use Rattle.std.specs.Prelude.{◌≡◌, ℕ, ◌+◌, ◌*◌, ◌<◌, ◌≤◌, true, false, Option, None, Some, List, length};
ghost use Rattle.std.specs.List.{list_all};
ghost use Rattle.mml_ids.specs.Search.{count_below};
ghost use Rattle.mml_rules.specs.declared.rule.Rule.{Rule};
ghost use Rattle.mml_rules.specs.Configuration.{Configuration, IsLawful};
ghost use Rattle.mml_rules.specs.Network.{Network, IsNetwork, configuration_of};
ghost use Rattle.mml_rules.specs.Rules.{is_privileged, step, AllHold};
ghost use Rattle.mml_rules.specs.Matching.{IsPair, IsMaximal, IsStable};
ghost use Rattle.mml_lab.specs.declared.who.Who.{Who};
ghost use Rattle.mml_lab.specs.Labs.{link_count};
ghost use Rattle.mml_lab.specs.Rosters.{RosterValue, IsRoster, owns};
ghost use Rattle.mml_board.specs.declared.event.Event.{Event};
ghost use Rattle.mml_board.specs.World.{World, IsWorld, size, configuration, chosen_at};
ghost use Rattle.mml_board.specs.Events.{is_legal};
ghost use Rattle.mml_board.specs.Runs.{is_legal_list, world_of};
ghost use Rattle.mml_convergence.specs.Runs.{is_of_step, changes_of_m};
ghost use Rattle.mml_convergence.specs.Potential.{potential, whole_potential};
ghost use Rattle.mml_convergence.specs.Moves.{moves, applied_over, count_closes};
ghost use Rattle.mml_convergence.specs.Rest.{EachHasOwner, IsOver, LeadsToRest};
ghost use Rattle.mml_convergence.specs.Rounds.{Rounds, rounds_for, ClosesFull};
ghost use Rattle.mml_convergence.specs.Examples.{two_nodes, triangle_world, sole_owner, twenty_moves};

/// Two nodes that point at each other also point at each other after any step of moves whose guards hold.
#[tactic(auto, using(crate::proofs::StepLemmas::moved_keeps))]
pub fn step_keeps_pairs()
    ensures { (c : Configuration) (chosen : ℕ → Option Rule) (i j : ℕ) → AllHold c chosen →
        IsPair c i j → IsPair (step c chosen) i j }
{}

/// In a legal list of grants, releases and closes, from any world, the register m of each node changes at most twice.
#[tactic(auto, using(crate::proofs::RunsLemmas::twice_at_most))]
pub fn m_changes_at_most_twice()
    ensures { (r : RosterValue) (w : World) (es : List Event) (i : ℕ) → IsWorld w →
        is_legal_list r w es ≡ true → list_all is_of_step es ≡ true → changes_of_m i w es ≤ 2 }
{}

/// A step of moves whose guards hold lowers the sum of all nodes' potentials by at least the number of nodes that move.
/// The sum is at most 2 for each link and 3 for each node.
#[tactic(auto, using(crate::proofs::WholePotentialLemmas::whole_fell, crate::proofs::AppliedLemmas::network_most))]
pub fn step_lowers_potential()
    ensures lower { (c : Configuration) (chosen : ℕ → Option Rule) → IsLawful c →
        AllHold c chosen →
        whole_potential (step c chosen) + count_below c.size (moves chosen) ≤ whole_potential c }
    ensures most { (n : Network) → IsNetwork n →
        whole_potential (configuration_of n) ≤ 2 * link_count n + 3 * length n.registers }
{}

/// The closes of a legal list of grants, releases and closes, from any world, apply at most 2 moves for each link and 3
/// for each node. A close applies the moves that were granted and not released since; the bound holds whichever moves
/// were granted.
#[tactic(auto, using(crate::proofs::AppliedLemmas::moves_bounded))]
pub fn moves_are_bounded()
    ensures { (r : RosterValue) (w : World) (es : List Event) → IsWorld w →
        is_legal_list r w es ≡ true → list_all is_of_step es ≡ true →
        applied_over w es ≤ 2 * link_count w.network + 3 * size w }
{}

/// From any world, a legal list of grants, releases and closes has at most 2 closes for each link and 3 for each node.
/// The reason is that each close applies a move.
#[tactic(auto, using(crate::proofs::AppliedLemmas::closes_bounded))]
pub fn closes_are_bounded()
    ensures { (r : RosterValue) (w : World) (es : List Event) → IsWorld w →
        is_legal_list r w es ≡ true → list_all is_of_step es ≡ true →
        count_closes es ≤ 2 * link_count w.network + 3 * size w }
{}

/// The bound on all moves is 2 for each link and 3 for each node. This bound is reached in `triangle_world`, a triangle
/// with a tail, a network with 4 links and 4 nodes. If one student owns all nodes, the legal list `twenty_moves` of
/// grants and closes applies 20 moves there.
pub fn bound_is_reached()
    ensures roster { IsRoster sole_owner }
    ensures world { IsWorld triangle_world }
    ensures legal { is_legal_list sole_owner triangle_world twenty_moves ≡ true }
    ensures of_step { list_all is_of_step twenty_moves ≡ true }
    ensures counts { (applied_over triangle_world twenty_moves ≡ 20) × (link_count triangle_world.network ≡ 4) ×
        (size triangle_world ≡ 4) }
    ensures reached { applied_over triangle_world twenty_moves ≡
        2 * link_count triangle_world.network + 3 * size triangle_world }
{}

/// At a privileged node without a chosen move, the grant of some rule is legal for each owner of the node.
#[tactic(auto, using(crate::proofs::RestLemmas::may_move))]
pub fn privileged_nodes_may_move()
    ensures { (r : RosterValue) (w : World) (i : ℕ) → IsWorld w → i < size w →
        is_privileged (configuration w) i ≡ true → chosen_at w.chosen i ≡ None →
        (rule : Rule) × ((s : ℕ) → owns r (Who.Student s) i ≡ true →
        is_legal r w (Event.Grant s i rule) ≡ true) }
{}

/// Let a legal list of grants, releases and closes, from any world, begin with 2n rounds for n nodes. Then no node is
/// privileged after the list, and the pairs are a maximal matching, however the moves are chosen. A list that ends with
/// a privileged node has fewer than `rounds_for n` rounds, which are four for each two nodes and one for a node left
/// over.
#[tactic(auto, using(crate::proofs::RoundsLemmas::rounds_bounded, crate::proofs::RoundsLemmas::rounds_fewer))]
pub fn rounds_are_bounded()
    ensures stable { (r : RosterValue) (w : World) (es : List Event) → IsWorld w →
        is_legal_list r w es ≡ true → list_all is_of_step es ≡ true → Rounds (2 * size w) w es →
        IsStable (configuration (world_of w es)) × IsMaximal (configuration (world_of w es)) }
    ensures fewer { (r : RosterValue) (w : World) (es : List Event) (k : ℕ) → IsWorld w →
        is_legal_list r w es ≡ true → list_all is_of_step es ≡ true → Rounds k w es →
        ¬ IsStable (configuration (world_of w es)) → k < rounds_for (size w) }
{}

/// `rounds_for n`, four rounds for each two of n nodes and one for a node left over, is 2n, or 2n - 1 if n is odd.
#[tactic(auto, using(crate::proofs::RoundsLemmas::most_rounds, crate::proofs::RoundsLemmas::for_even, crate::proofs::RoundsLemmas::for_odd))]
pub fn rounds_in_numbers()
    ensures at_most { (n : ℕ) → rounds_for n ≤ 2 * n }
    ensures even { (k : ℕ) → rounds_for (2 * k) ≡ 4 * k }
    ensures odd { (k : ℕ) → rounds_for (2 * k + 1) ≡ 4 * k + 1 }
{}

/// If no node is privileged after a list of events, the list begins with k rounds for every k. The whole list is one
/// round, and empty lists are the further rounds.
#[tactic(auto, using(crate::proofs::RoundsLemmas::stable_rounds))]
pub fn stable_lists_have_rounds()
    ensures { (w : World) (es : List Event) (k : ℕ) → IsStable (configuration (world_of w es)) →
        Rounds k w es }
{}

/// Let every privileged node have a chosen move at each close of a legal list of grants, releases and closes. Then the
/// list, from any world, has at most 2n closes for n nodes, and 2n - 1 if n is odd.
#[tactic(auto, using(crate::proofs::ClosesFullLemmas::closes_few))]
pub fn full_closes_are_few()
    ensures { (r : RosterValue) (w : World) (es : List Event) → IsWorld w →
        is_legal_list r w es ≡ true → list_all is_of_step es ≡ true → ClosesFull w es →
        count_closes es ≤ rounds_for (size w) }
{}

/// If no node is privileged, no grant, no release and no close is legal. Only a fault, a link or a cut can be legal.
#[tactic(auto, using(crate::proofs::RestLemmas::stable_final))]
pub fn stable_is_final()
    ensures { (r : RosterValue) (w : World) (e : Event) → IsWorld w → IsStable (configuration w) →
        is_of_step e ≡ true → is_legal r w e ≡ false }
{}

/// Let each node have an owner. If no grant and no close is legal after a legal list, no node is privileged, and the
/// pairs are a maximal matching. From every world, some legal list of grants and closes leads to a world in which no
/// node is privileged. This list has at most 4 events for each link and 6 for each node.
#[tactic(auto, using(crate::proofs::RestLemmas::ended, crate::proofs::LeadsToRestLemmas::reached))]
pub fn runs_end_stable()
    ensures ended { (r : RosterValue) (w : World) (es : List Event) → IsWorld w →
        EachHasOwner r (size w) → is_legal_list r w es ≡ true → IsOver r (world_of w es) →
        IsStable (configuration (world_of w es)) × IsMaximal (configuration (world_of w es)) }
    ensures reached { (r : RosterValue) (w : World) → IsWorld w → EachHasOwner r (size w) →
        (es : List Event) × LeadsToRest r w (4 * link_count w.network + 6 * size w) es }
{}

/// The potentials of some nodes, counted by hand to check the definition of `potential`. Two linked nodes are tried in
/// four states. In `apart` neither points at the other, and in `asked` the second points at the first. In `refused` the
/// first points at the second, whose m is true. In `paired` they are a pair, with m true at both. For a triangle with a
/// tail, the sum over all nodes is 20, the greatest sum for 4 links and 4 nodes.
#[tactic(auto, using(crate::proofs::ExamplesLemmas::triangle_potential), unfolding(crate::specs::Potential::potential, mml_rules::specs::Rules::is_married))]
pub fn potentials_by_hand()
    ensures apart { (potential (two_nodes None false None false) 0 ≡ 3) ×
        (potential (two_nodes None false None false) 1 ≡ 1) }
    ensures asked { (potential (two_nodes None false (Some 0) false) 0 ≡ 3) ×
        (potential (two_nodes None false (Some 0) false) 1 ≡ 2) }
    ensures refused { (potential (two_nodes (Some 1) false None true) 0 ≡ 4) ×
        (potential (two_nodes (Some 1) false None true) 1 ≡ 2) }
    ensures paired { (potential (two_nodes (Some 1) true (Some 0) true) 0 ≡ 0) ×
        (potential (two_nodes (Some 1) true (Some 0) true) 1 ≡ 0) }
    ensures triangle { whole_potential (configuration triangle_world) ≡ 20 }
{}
