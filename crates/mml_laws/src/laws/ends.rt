//! How runs end. Each law is the contract of a function that does nothing.
//!
//! A house is one run of a lab that threads share: its list of granted events, the board after them, and their journal.
//! A house is full if it has as many events as the lab allows, and halted if a line couldn't be written to the journal.
//! The log of a house is its result. A node is privileged if some rule is enabled there. A grant chooses a move for a
//! node, a release drops it, and a close applies all chosen moves at once. A fault sets a node's registers, a link
//! joins two nodes, and a cut removes a link. The place of an event is its number in the list of events, from 1.
ghost use Rattle.std.specs.Prelude.{◌≡◌, ◌+◌, ◌*◌, ◌<◌, ◌≤◌, ℕ, true, false, List, ◌++◌, length, Option, Ok};
ghost use Rattle.std.specs.List.{list_all};
ghost use Rattle.mml_rules.specs.Matching.{IsStable};
ghost use Rattle.mml_lab.specs.Labs.{LabValue, IsLab, link_count};
ghost use Rattle.mml_lab_file.specs.Reading.{lab_of};
ghost use Rattle.mml_board.specs.declared.event.Event.{Event};
ghost use Rattle.mml_board.specs.World.{configuration};
ghost use Rattle.mml_board.specs.Lists.{world_in};
ghost use Rattle.mml_audit.specs.AuditMeaning.{IsJournalOf};
ghost use Rattle.mml_stable.specs.Listed.{IsMaximalMatching};
ghost use Rattle.mml_convergence.specs.Moves.{applied_over, count_closes};
ghost use Rattle.mml_stable.specs.Reports.{report_of};
ghost use Rattle.mml_convergence.specs.Runs.{is_of_step};
ghost use Rattle.mml_window.specs.declared.log.Log.{Log};
ghost use Rattle.mml_window.specs.Logs.{IsLogFrom};
ghost use Rattle.mml_window.specs.Windows.{WindowValue};
ghost use Rattle.mml_laws.specs.Ends.{GrantsNoStep};

/// Take a house (one run of a lab) that is neither full nor halted. Let it be over: no move of a student and no close
/// would be granted any more. Then no node is privileged. The pairs in its report are a maximal matching.
pub fn a_house_that_is_over_is_stable<S>()
    ensures { (bytes : List ℕ) (lab : LabValue) (first : ℕ)
        (contents : S → Option (List ℕ)) (windows : List WindowValue) (log : Log S) →
        lab_of bytes ≡ Ok lab → IsLogFrom first lab contents windows log →
        length log.events < lab.events → log.halted ≡ false →
        GrantsNoStep lab log.halted log.board →
        IsStable (configuration log.board)
        × IsMaximalMatching (configuration log.board) (report_of log.board).pairs }
{}

/// Let a network have n nodes, and L links at some place of a journal after which no fault, link or cut comes. Then at
/// most 2L + 3n moves are applied after this place, in at most 2L + 3n closes.
#[tactic(auto, using(crate::proofs::EndsLemmas::few_moves, crate::proofs::EndsLemmas::few_closes))]
pub fn few_moves_follow_the_last_fault()
    ensures moves { (lab : LabValue) (es fs : List Event) (bytes : List ℕ) → IsLab lab →
        IsJournalOf lab (es ++ fs) bytes → list_all is_of_step fs ≡ true →
        applied_over (world_in lab es) fs
        ≤ 2 * link_count (world_in lab es).network + 3 * length lab.ids }
    ensures closes { (lab : LabValue) (es fs : List Event) (bytes : List ℕ) → IsLab lab →
        IsJournalOf lab (es ++ fs) bytes → list_all is_of_step fs ≡ true →
        count_closes fs ≤ 2 * link_count (world_in lab es).network + 3 * length lab.ids }
{}
