//! The words of the journal. Each law is the contract of a function that does nothing.
//!
//! A grant chooses a move for a node, a release drops it, and a close applies all chosen moves at once. A fault sets a
//! node's registers, a link joins two nodes, and a cut removes a link. The place of an event is its number in the list
//! of events, from 1.
ghost use Rattle.std.specs.Prelude.{◌≡◌, ◌∷◌, ℕ, List, decimal};
ghost use Rattle.mml_lab.specs.Rosters.{RosterValue};
ghost use Rattle.mml_board.specs.declared.event.Event.{Event};
ghost use Rattle.mml_journal.specs.Words.{spaced};
ghost use Rattle.mml_journal.specs.EventLines.{event_line};
ghost use Rattle.mml_laws.specs.JournalWords.{words_of};

/// The line of an event has its place, the number of the configuration before it, and the words that `words_of` lists
/// for the event. One space separates them.
#[tactic(auto, using(crate::proofs::JournalWordsLemmas::line_words))]
pub fn journals_have_these_words()
    ensures { (ids : List ℕ) (roster : RosterValue) (place before : ℕ) (e : Event) →
        event_line ids roster place before e
        ≡ spaced (decimal place ∷ decimal before ∷ words_of ids roster e) }
{}
