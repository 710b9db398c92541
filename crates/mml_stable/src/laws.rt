//! Laws of stable configurations and of the report. Each is the contract of a function that does nothing.
//!
//! The registers of a node are its pointer p and m, which is true or false. A node is privileged if some rule is
//! enabled there. A configuration is stable if no node is privileged. A pair is two nodes that point at each other, and
//! a free node is in no pair. A link is open if both its ends are free. Its witness is a privileged node that the
//! report names for it. The rank of a node is its index in the rising order of identifiers. The pairs are a maximal
//! matching if each link has an end that is in a pair. A configuration is lawful (`IsLawful`) if each link joins two
//! different nodes in both directions, and pointers lead only to neighbours. A world is a network with its registers,
//! its chosen moves, the number of its configuration, and the number of events so far.
ghost use Rattle.std.specs.Prelude.{◌≡◌, ◌↔◌, ◌⊎◌, ℕ, ◌<◌, true, false, Some, Contains};
ghost use Rattle.mml_rules.specs.declared.rule.Kind.{Kind};
ghost use Rattle.mml_rules.specs.Configuration.{Configuration, IsLawful};
ghost use Rattle.mml_rules.specs.Naming.{IsRenamed};
ghost use Rattle.mml_rules.specs.Rules.{is_married, is_privileged};
ghost use Rattle.mml_rules.specs.Matching.{IsMatching, IsMaximal, IsStable};
ghost use Rattle.mml_rules.specs.Meaning.{IsMarried};
ghost use Rattle.mml_board.specs.World.{World, IsWorld, size, configuration};
ghost use Rattle.mml_stable.specs.declared.open_link.OpenLink.{OpenLink};
ghost use Rattle.mml_stable.specs.Reports.{NamesNodes, pairs, free_nodes, privileged_nodes, is_open, open_links, is_stable, report_of};
ghost use Rattle.mml_stable.specs.Listed.{IsPairInOrder, IsFreeNode, IsPrivilegedBy, IsOpenLink, Rises, IsLinkBefore, IsMaximalMatching};
ghost use Rattle.mml_stable.specs.Walk.{top, certificate, LeadsTo};

/// A report says `stable` exactly if no node is privileged. No node is in two pairs. If no node is privileged, the
/// pairs are a maximal matching, and m is true exactly at the nodes that are in a pair.
pub fn stable_is_maximal()
    ensures told { (c : Configuration) → (is_stable c ≡ true) ↔ IsStable c }
    ensures matching { (c : Configuration) → IsMatching c }
    ensures maximal { (c : Configuration) → IsLawful c → IsStable c → IsMaximal c }
    ensures m { (c : Configuration) (i : ℕ) → IsLawful c → IsStable c → i < c.size →
        (c.m i ≡ true) ↔ IsMarried c i }
{}

/// Let a walk follow the pointers from a node that is free (in no pair) or has m false. It comes to a node that is
/// privileged or points at no node, and ends at the first such node. Each node of the walk after the first is greater
/// than the one before, and has m false.
pub fn walk_rises()
    ensures rises { (c : Configuration) (i j : ℕ) → IsLawful c → is_privileged c i ≡ false →
        (is_married c i ≡ false) ⊎ (c.m i ≡ false) → c.p i ≡ Some j →
        (i < j) × (c.m j ≡ false) }
    ensures ends { (c : Configuration) (i : ℕ) → IsLawful c → i < c.size →
        (is_married c i ≡ false) ⊎ (c.m i ≡ false) → LeadsTo c i (top c i) }
{}

/// Each node that a report names is a node of its world.
#[tactic(auto, using(crate::proofs::NamedLemmas::report_names))]
pub fn reports_name_nodes()
    ensures { (w : World) → IsWorld w → NamesNodes (size w) (report_of w) }
{}

/// Each list of a report is exact. `pairs` has the nodes that point at each other, the lower one first. `free_nodes`
/// has the nodes in no pair. `privileged_nodes` has the nodes at which some rule may be applied, each with the kind of
/// that rule. `open_links` has the links between two free nodes, the lower one first, each with its witness.
pub fn lists_are_exact()
    ensures pairs { (c : Configuration) (p : ℕ × ℕ) → IsLawful c →
        Contains (pairs c) p ↔ IsPairInOrder c p }
    ensures free { (c : Configuration) (i : ℕ) → IsLawful c →
        Contains (free_nodes c) i ↔ IsFreeNode c i }
    ensures privileged { (c : Configuration) (p : ℕ × Kind) → IsLawful c →
        Contains (privileged_nodes c) p ↔ IsPrivilegedBy c p }
    ensures open_links { (c : Configuration) (l : OpenLink) → IsLawful c →
        Contains (open_links c) l ↔ IsOpenLink c l }
{}

/// Each list of a report is in strictly rising order, so that nothing is listed twice. Free and privileged nodes are
/// ordered by their ranks, and pairs by their first nodes. Open links are ordered by their first ends, and those with
/// the same first end by their second ends.
#[tactic(auto, using(crate::proofs::ListedLemmas::pairs_rise, crate::proofs::ListedLemmas::free_rise, crate::proofs::ListedLemmas::privileged_rise, crate::proofs::ListedLemmas::open_rise))]
pub fn lists_rise()
    ensures pairs { (c : Configuration) → Rises (λ p q. p.0 < q.0) (pairs c) }
    ensures free { (c : Configuration) → Rises (λ i j. i < j) (free_nodes c) }
    ensures privileged { (c : Configuration) → Rises (λ p q. p.0 < q.0) (privileged_nodes c) }
    ensures open_links { (c : Configuration) → Rises IsLinkBefore (open_links c) }
{}

/// If a report says `stable`, the pairs that it lists are a maximal matching.
pub fn stable_reports_list_a_maximal_matching()
    ensures { (w : World) → IsWorld w → (report_of w).stable ≡ true →
        IsMaximalMatching (configuration w) (report_of w).pairs }
{}

/// If the nodes get other names in the same order, each open link (between two free nodes) keeps its witness: the same
/// node with the same rule. `f` maps a node to its new name.
#[tactic(auto, using(crate::proofs::WitnessNamesLemmas::witness_named))]
pub fn witnesses_keep_under_names()
    ensures { (f : ℕ → ℕ) (c d : Configuration) (a b : ℕ) → IsLawful c → IsRenamed f c d →
        is_open c a b ≡ true →
        certificate d (f a) (f b) ≡ (f (certificate c a b).0, (certificate c a b).1) }
{}
