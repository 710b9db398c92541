//! The policy, which says who may see and do what: the clauses of each command, and the contents of the answers.
//!
//! A clause is a condition for a command. The verdict on a command is its denial, or what it may do if all its clauses
//! hold. The ruling is the verdict, or a refusal in place of a grant. Such a refusal means that the lab allows no more
//! events, or that the journal is halted, since a line couldn't be written to it.
#![tactic(auto)]

mod clause;
mod command;
mod course;
pub mod laws;
mod look;
mod refusal;
mod ruling;
mod see;
mod verdict;
mod visibility;

pub use command::{Asked, Command};
pub use course::Course;
pub use look::{Look, look_of};
pub use mml_board::Denial;
pub use refusal::Refusal;
pub use ruling::{Ruling, rule_on};
pub use see::{See, see_of};
pub use verdict::{Leave, Verdict, clauses, judge, may_look, may_report, may_see};
pub use visibility::visible;
