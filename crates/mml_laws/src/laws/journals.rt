//! What a journal says. Each law is the contract of a function that does nothing.
//!
//! A list of events is legal if each event is allowed in the world after the earlier ones. The journal has one line for
//! each event.
ghost use Rattle.std.specs.Prelude.{◌≡◌, ℕ, List};
ghost use Rattle.mml_lab.specs.Labs.{LabValue, IsLab};
ghost use Rattle.mml_board.specs.declared.event.Event.{Event};
ghost use Rattle.mml_audit.specs.AuditMeaning.{IsJournalOf};

/// One journal has one list: the same bytes are the journal of no two lists of a lab's events.
#[tactic(auto, using(crate::proofs::JournalsLemmas::same_list))]
pub fn one_journal_has_one_list()
    ensures { (lab : LabValue) (es fs : List Event) (bytes : List ℕ) → IsLab lab →
        IsJournalOf lab es bytes → IsJournalOf lab fs bytes → es ≡ fs }
{}
