//! The marks of students, which are the counts in a tally. Each law is the contract of a function that does nothing.
//!
//! A grant chooses a move for a node, a release drops it, and a close applies all chosen moves at once. A fault sets a
//! node's registers, a link joins two nodes, and a cut removes a link.
ghost use Rattle.std.specs.Prelude.{◌≤◌, ℕ, List};
ghost use Rattle.mml_lab.specs.Rosters.{RosterValue};
ghost use Rattle.mml_board.specs.declared.event.Event.{Event};
ghost use Rattle.mml_tally.specs.Marks.{marks_of};
ghost use Rattle.mml_tally.specs.Runs.{run_of};

/// A student's marks count the closes that applied a move of the student. These closes are at most as many as the
/// closes of the run.
#[tactic(auto, using(crate::proofs::RunClosesLemmas::closes_of_run))]
pub fn no_student_has_more_closes_than_the_run()
    ensures { (r : RosterValue) (es : List Event) (s : ℕ) →
        (marks_of r es s).closes ≤ (run_of es).closes }
{}
