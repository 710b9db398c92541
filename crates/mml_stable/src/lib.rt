//! The stability report: the pairs, the free and the privileged nodes, and the open links, each with a privileged node
//! as its witness.
//!
//! A node is privileged if some rule is enabled there. A pair is two nodes that point at each other, and a free node is
//! in no pair. A link is open if both its ends are free.
#![tactic(auto)]

mod certificate;
mod kinds;
pub mod laws;
mod open_link;
mod reporting;
mod stability_report;

pub use certificate::certify;
pub use open_link::OpenLink;
pub use reporting::report;
pub use stability_report::Report;
