//! The witnesses of open links. Each law is the contract of a function that does nothing.
//!
//! A node is privileged if some rule is enabled there. A node's pointer is the neighbour that its register p names, or
//! null. A link is open if neither of its ends is in a pair of nodes that point at each other.
ghost use Rattle.std.specs.Prelude.{◌≡◌, ℕ, true};
ghost use Rattle.mml_rules.specs.declared.rule.Kind.{Kind};
ghost use Rattle.mml_rules.specs.Configuration.{Configuration, IsLawful};
ghost use Rattle.mml_stable.specs.Reports.{is_open};
ghost use Rattle.mml_stable.specs.Walk.{certificate, LeadsTo};
ghost use Rattle.mml_laws.specs.Witnesses.{EndsIn, IsIdle};

/// Each open link has a witness: a privileged node with its enabled rule, which shows that the run isn't over. The
/// witness is found by following the pointers from the link's lower end to the first privileged node whose rule isn't a
/// seduction. If this way comes to a seduction first, or to a null pointer, the pointers are followed from the higher
/// end instead. If neither way finds a node, the witness is the lower end, with a seduction.
#[tactic(auto, using(std::proofs::lemmas::Bool::Decides::nat_tests, crate::proofs::WitnessesLemmas::walk_there), unfolding(mml_stable::specs::Walk::certificate))]
pub fn witnesses_are_sought_from_the_lower_end()
    ensures lower { (c : Configuration) (a b x : ℕ) (kind : Kind) → IsLawful c →
        is_open c a b ≡ true → LeadsTo c a x → EndsIn c x kind → certificate c a b ≡ (x, kind) }
    ensures higher { (c : Configuration) (a b x y : ℕ) (kind : Kind) → IsLawful c →
        is_open c a b ≡ true → LeadsTo c a x → IsIdle c x → LeadsTo c b y → EndsIn c y kind →
        certificate c a b ≡ (y, kind) }
    ensures neither { (c : Configuration) (a b x y : ℕ) → IsLawful c → is_open c a b ≡ true →
        LeadsTo c a x → IsIdle c x → LeadsTo c b y → IsIdle c y →
        certificate c a b ≡ (a, Kind.Seduction) }
{}
