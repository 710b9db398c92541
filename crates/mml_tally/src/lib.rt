//! The tally of a run's events: for each student, for the run, and for each node that several own. Each move is
//! followed through the list of events alone. The tally also says how many moves, rounds and events may still follow.
//!
//! A grant chooses a move for a node, a release drops it, and a close applies all chosen moves at once. A fault sets a
//! node's registers, a link joins two nodes, and a cut removes a link. A granted move is applied by the next close,
//! unless a release, a fault, a link or a cut drops it before.
#![tactic(auto)]

mod ask;
mod bounds;
mod fate;
mod granted_move;
mod lacking;
pub mod laws;
mod marks;
mod owners;
mod record_text;
mod refusals;
mod rounds;
mod run;
mod student_denials;
mod text;

pub use ask::{Ask, Denials, Line, denials_of, moves_asked_by, push_ask};
pub use bounds::{Bounds, bounds_of};
pub use fate::{Fate, ended_by, fate_of};
pub use granted_move::{Move, moves_of};
pub use lacking::put_recorded;
pub use marks::{ByRule, Marks, by_rule, is_applied, marks_of, moves_at, moves_by};
pub use owners::{is_shared, owners_of};
pub use record_text::{Findings, put_recorded_tally};
pub use refusals::{Refusals, refusals_of};
pub use rounds::{put_rounds, rounds_since};
pub use run::{Run, run_of};
pub use student_denials::{NamedDenials, StudentDenial, named_of};
pub use text::put_tally;
