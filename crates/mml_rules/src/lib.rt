//! The four rules of the maximal matching algorithm of Manne et al. 2009, over any network.
//!
//! The registers of a node are its pointer p and m, which is true or false. A guard is the condition under which a rule
//! may be applied at a node.
#![tactic(auto)]

pub mod laws;
mod network;
mod regs;
mod rule;
mod rules;
mod scene;

pub use network::Network;
pub use regs::Regs;
pub use rule::{Kind, Rule, kind_of};
pub use rules::{effect, enabled, guard, married};
pub use scene::Scene;
