//! Laws about the greatest numbers of moves and rounds of a run. Each is the contract of a function that does nothing.
//!
//! A world is a network with its registers, its chosen moves, the number of its configuration, and the number of events
//! so far. The registers of a node are its pointer p and m, which is true or false. A node is privileged if some rule
//! is enabled there. A node is married if it and another node point at each other. A list of events is legal if each
//! event is allowed in the world after the earlier ones. A grant chooses a move for a node, a release drops it, and a
//! close applies all chosen moves at once, which is a step. A fault sets a node's registers, a link joins two nodes,
//! and a cut removes a link.
//!
//! A round is a list of events in which each node has its turn: at some point it isn't privileged, or a close applies
//! its move. The worlds `halves_world`, `crowd_world` and `comb_world` have networks with long runs, and registers from
//! which these runs begin. A configuration is lawful (`IsLawful`) if each link joins two different nodes in both
//! directions, and pointers lead only to neighbours. A world is lawful (`IsWorld`) if its configuration is, and the
//! guards of its chosen moves hold. `Rounds k w es` says that the list es, which begins in the world w, begins with k
//! rounds, one after another.
ghost use Rattle.std.specs.Prelude.{◌≡◌, ℕ, ◌+◌, ◌-◌, ◌*◌, ◌<◌, ◌≤◌, true, List, Option};
ghost use Rattle.std.specs.List.{list_all};
ghost use Rattle.mml_ids.specs.Search.{count_below};
ghost use Rattle.mml_ids.specs.declared.TheConstants.{MAX_NODES};
ghost use Rattle.mml_rules.specs.declared.rule.Rule.{Rule};
ghost use Rattle.mml_rules.specs.Configuration.{Configuration, IsLawful};
ghost use Rattle.mml_rules.specs.Rules.{step, AllHold};
ghost use Rattle.mml_rules.specs.Matching.{IsStable};
ghost use Rattle.mml_lab.specs.Labs.{link_count};
ghost use Rattle.mml_lab.specs.declared.who.Who.{Who};
ghost use Rattle.mml_lab.specs.Rosters.{RosterValue, owns};
ghost use Rattle.mml_board.specs.declared.event.Event.{Event};
ghost use Rattle.mml_board.specs.World.{World, IsWorld, size, configuration};
ghost use Rattle.mml_board.specs.Runs.{is_legal_list, world_of};
ghost use Rattle.mml_convergence.specs.Runs.{is_of_step};
ghost use Rattle.mml_convergence.specs.Moves.{moves, applied_over, count_closes};
ghost use Rattle.mml_convergence.specs.Rest.{is_grant_or_close};
ghost use Rattle.mml_convergence.specs.Rounds.{Rounds, rounds_for};
ghost use Rattle.mml_convergence.specs.Courtships.{most_courtships, courting_potential};
ghost use Rattle.mml_convergence.specs.Most.{most_moves};
ghost use Rattle.mml_convergence.specs.Halves.{halves_world};
ghost use Rattle.mml_convergence.specs.Crowd.{crowd_world};
ghost use Rattle.mml_convergence.specs.Comb.{comb_world};

/// On n nodes with L links, a legal list of grants, releases and closes applies at most 3n + 2 min(L, n²/4) moves, with
/// n²/4 rounded down. The bound holds from any world, and however the moves are chosen.
#[tactic(auto, using(crate::proofs::AppliedLemmas::moves_few))]
pub fn moves_are_few()
    ensures { (r : RosterValue) (w : World) (es : List Event) → IsWorld w →
        is_legal_list r w es ≡ true → list_all is_of_step es ≡ true →
        applied_over w es ≤ most_moves (size w) (link_count w.network) }
{}

/// A courtship is a pointer of an unmarried node at a higher unmarried node whose m is false. `most_courtships n` is
/// the greatest number of courtships among n unmarried nodes: n²/4, rounded down.
#[tactic(auto, using(crate::proofs::NumbersLemmas::courtships_even, crate::proofs::NumbersLemmas::courtships_odd))]
pub fn courtships_in_numbers()
    ensures even { (k : ℕ) → most_courtships (2 * k) ≡ k * k }
    ensures odd { (k : ℕ) → most_courtships (2 * k + 1) ≡ k * k + k }
{}

/// The courting potential of a configuration is a bound on the moves that can still come. It is the sum of a part for
/// each node, of at most 3, and of 2 for each courtship that is possible among the unmarried nodes. The part of an
/// unmarried node is least if it courts another one. A step of moves whose guards hold lowers the potential by at least
/// the number of nodes that move. For n nodes the potential is at most 3n + 2k, where k is n²/4, rounded down.
#[tactic(auto, using(crate::proofs::WholeLemmas::courting_fell, crate::proofs::WholeLemmas::courting_most))]
pub fn step_lowers_courting_potential()
    ensures lower { (c : Configuration) (chosen : ℕ → Option Rule) → IsLawful c → AllHold c chosen →
        courting_potential (step c chosen) + count_below c.size (moves chosen) ≤ courting_potential c }
    ensures most { (c : Configuration) →
        courting_potential c ≤ 3 * c.size + 2 * most_courtships c.size }
{}

/// By `rounds_are_bounded`, a legal list of grants, releases and closes that ends with a privileged node has fewer than
/// `rounds_for n` rounds. This bound is 2n for n nodes, or 2n - 1 if n is odd. It can't be lowered for any n from 2 to
/// 256, if one student owns all nodes of the world `halves_world n`. From this world, some legal list of grants and
/// closes has one round less than the bound, and ends with a privileged node. There is also such a list in which each
/// close applies only one move.
pub fn rounds_are_reached()
    ensures world { (n : ℕ) → n ≤ MAX_NODES →
        IsWorld (halves_world n) × (size (halves_world n) ≡ n) }
    ensures reached { (r : RosterValue) (s n : ℕ) → 2 ≤ n → n ≤ MAX_NODES →
        ((i : ℕ) → i < n → owns r (Who.Student s) i ≡ true) →
        (es : List Event) × (is_legal_list r (halves_world n) es ≡ true) ×
        (list_all is_grant_or_close es ≡ true) × Rounds (rounds_for n - 1) (halves_world n) es ×
        (¬ IsStable (configuration (world_of (halves_world n) es))) }
    ensures singly { (r : RosterValue) (s n : ℕ) → 2 ≤ n → n ≤ MAX_NODES →
        ((i : ℕ) → i < n → owns r (Who.Student s) i ≡ true) →
        (es : List Event) × (is_legal_list r (halves_world n) es ≡ true) ×
        (list_all is_grant_or_close es ≡ true) ×
        (applied_over (halves_world n) es ≡ count_closes es) ×
        Rounds (rounds_for n - 1) (halves_world n) es ×
        (¬ IsStable (configuration (world_of (halves_world n) es))) }
{}

/// Let k be n²/4, rounded down. By `moves_are_few`, a legal list of grants, releases and closes on n nodes applies at
/// most 3n + 2k moves. For each even n from 4 to 256, some list applies as many. For each odd n from 5 to 255, some
/// list applies one move less. Each of these is a legal list of grants and closes from the world `crowd_world n`, a
/// dense network of which one student owns all nodes.
#[tactic(auto, using(crate::proofs::MovesReachedLemmas::moves_reached_even, crate::proofs::MovesReachedLemmas::moves_reached_odd))]
pub fn moves_are_reached()
    ensures world { (n : ℕ) → 4 ≤ n → n ≤ MAX_NODES →
        IsWorld (crowd_world n) × (size (crowd_world n) ≡ n) }
    ensures even { (r : RosterValue) (s k : ℕ) → 2 ≤ k → 2 * k ≤ MAX_NODES →
        ((i : ℕ) → i < 2 * k → owns r (Who.Student s) i ≡ true) →
        (es : List Event) × (is_legal_list r (crowd_world (2 * k)) es ≡ true) ×
        (list_all is_grant_or_close es ≡ true) ×
        (applied_over (crowd_world (2 * k)) es ≡ 3 * (2 * k) + 2 * most_courtships (2 * k)) }
    ensures odd { (r : RosterValue) (s k : ℕ) → 2 ≤ k → 2 * k + 1 ≤ MAX_NODES →
        ((i : ℕ) → i < 2 * k + 1 → owns r (Who.Student s) i ≡ true) →
        (es : List Event) × (is_legal_list r (crowd_world (2 * k + 1)) es ≡ true) ×
        (list_all is_grant_or_close es ≡ true) ×
        (applied_over (crowd_world (2 * k + 1)) es ≡ 3 * (2 * k + 1) + 2 * most_courtships (2 * k + 1) - 1) }
{}

/// The comb (`comb_world`) of 4 nodes or more is a tree with one link less than nodes. Each node of the comb but the
/// last is linked to a higher one. By `moves_are_bounded`, no legal list of grants, releases and closes applies more
/// than 3 moves for each node and 2 for each link. If one student owns all nodes, some legal list of grants and closes
/// applies one move less than that, or two less if the number of nodes is odd. The law doesn't say whether other trees
/// allow more moves.
#[tactic(auto, using(crate::proofs::CombLemmas::trees_reached_even, crate::proofs::CombLemmas::trees_reached_odd))]
pub fn a_comb_takes_nearly_the_most_moves()
    ensures world { (n : ℕ) → 4 ≤ n → n ≤ MAX_NODES →
        IsWorld (comb_world n) × (size (comb_world n) ≡ n) }
    ensures tree { (n : ℕ) → 4 ≤ n → n ≤ MAX_NODES →
        (link_count (comb_world n).network ≡ n - 1) × ((i : ℕ) → i + 1 < n →
        (j : ℕ) × (i < j) × ((configuration (comb_world n)).linked i j ≡ true)) }
    ensures even { (r : RosterValue) (s k : ℕ) → 2 ≤ k → 2 * k ≤ MAX_NODES →
        ((i : ℕ) → i < 2 * k → owns r (Who.Student s) i ≡ true) →
        (es : List Event) × (is_legal_list r (comb_world (2 * k)) es ≡ true) ×
        (list_all is_grant_or_close es ≡ true) ×
        (applied_over (comb_world (2 * k)) es ≡ 3 * (2 * k) + 2 * (2 * k - 1) - 1) }
    ensures odd { (r : RosterValue) (s k : ℕ) → 2 ≤ k → 2 * k + 1 ≤ MAX_NODES →
        ((i : ℕ) → i < 2 * k + 1 → owns r (Who.Student s) i ≡ true) →
        (es : List Event) × (is_legal_list r (comb_world (2 * k + 1)) es ≡ true) ×
        (list_all is_grant_or_close es ≡ true) ×
        (applied_over (comb_world (2 * k + 1)) es ≡ 3 * (2 * k + 1) + 2 * (2 * k) - 2) }
{}
