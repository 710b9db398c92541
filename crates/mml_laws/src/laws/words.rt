//! The words of the protocol. Each law is the contract of a function that does nothing.
//!
//! A clause is a condition under which a request is granted; a denial names the first that doesn't hold. A refusal is a
//! reply that has another reason, for example that memory ran out. A node is privileged if some rule is enabled
//! there.
ghost use Rattle.std.specs.Prelude.{◌≡◌, ◌↔◌, ◌∷◌, [], ℕ, false, List, Some, codes};
ghost use Rattle.std.specs.List.{list_any, AllByRecursion};
ghost use Rattle.serde_json.specs.Data.{Data};
ghost use Rattle.serde_json.specs.Read.{read};
ghost use Rattle.mml_ids.specs.Ids.{IsTable};
ghost use Rattle.mml_lab.specs.Rosters.{RosterValue, IsRoster};
ghost use Rattle.mml_board.specs.declared.denial.Denial.TheVariants as denial;
ghost use Rattle.mml_codec.specs.declared.request.Request.{Request};
ghost use Rattle.mml_codec.specs.declared.reply.Reply.{Reply};
ghost use Rattle.mml_codec.specs.Fields.{HasEach};
ghost use Rattle.mml_codec.specs.Replies as written;
ghost use Rattle.mml_codec.specs.Replies.{IsAbout};
ghost use Rattle.mml_codec.specs.ReplyValues.{AreWritableCounts};
ghost use Rattle.mml_codec.specs.Requests.{request};
ghost use Rattle.mml_laws.specs.Lists.{HasLists, listed};
ghost use Rattle.mml_laws.specs.Words.{IsDenial, asked_fields, found_fields, tells_registers, is_view};

/// Each denial has the clause number, the name and the text that the contract lists for it.
#[tactic(auto, using(std::proofs::lemmas::Bool::Decides::nat_tests))]
pub fn denials_have_these_words()
    ensures { (at : ℕ) → AllByRecursion IsDenial (
        (denial.NotGreeted, 0, codes "not-greeted", codes "say hello first")
        ∷ (denial.Greeted, 1, codes "greeted", codes "this connection has a name already")
        ∷ (denial.Unknown, 2, codes "unknown", codes "name and key do not match")
        ∷ (denial.Hidden, 1, codes "hidden", codes "this node is not shown to you")
        ∷ (denial.NotOwner, 1, codes "not-owner", codes "you do not own this node")
        ∷ (denial.Stale at, 2, codes "stale", codes "this is not the current configuration")
        ∷ (denial.Chosen, 3, codes "chosen", codes "this node is already chosen")
        ∷ (denial.Guard, 4, codes "guard", codes "the guard of this rule does not hold")
        ∷ (denial.NotTeacher, 1, codes "not-teacher", codes "only the teacher may do this")
        ∷ (denial.Empty, 2, codes "empty", codes "no node is chosen")
        ∷ (denial.NoNode, 2, codes "no-node", codes "there is no such node")
        ∷ (denial.BadRegister, 3, codes "bad-register", codes "p must be null or a neighbour")
        ∷ (denial.Loop, 3, codes "loop", codes "a node is not linked to itself")
        ∷ (denial.Linked, 4, codes "linked", codes "these nodes are linked already")
        ∷ (denial.NotLinked, 3, codes "not-linked", codes "these nodes are not linked")
        ∷ (denial.NotChosen, 3, codes "not-chosen", codes "this node is not chosen")
        ∷ []) }
{}

/// A JSON value is read as a request exactly if it has the words and keys that `asked_fields` lists for that request.
#[tactic(auto, using(crate::proofs::WordsLemmas::asks_each))]
pub fn requests_have_these_words()
    ensures { (d : Data) (r : Request) → (request d ≡ Some r) ↔ HasEach d (asked_fields r) }
{}

/// A program that reads a reply's text as JSON finds under each key the value that `found_fields` lists for that reply.
/// Lists are left out here.
#[tactic(auto, using(crate::proofs::WordsLemmas::found))]
pub fn replies_are_read_by_these_words()
    ensures { (ids : List ℕ) (roster : RosterValue) (r : Reply) (d : Data) → IsTable ids →
        IsRoster roster → IsAbout ids roster r → AreWritableCounts roster r →
        read (written.text ids roster r) ≡ Some d → HasEach d (found_fields ids roster r) }
{}

/// Only a see, a look and a report have keys with registers, or with values that are computed from registers. The
/// definition `tells_registers` lists these keys.
#[tactic(auto, using(std::proofs::lemmas::Bool::Decides::nat_tests))]
pub fn only_views_tell_registers()
    ensures { (roster : RosterValue) (r : Reply) → is_view r ≡ false →
        list_any (λ f. tells_registers f.1) (written.fields_of roster r) ≡ false }
{}

/// A program that reads a reply's text as JSON finds the lists of `listed`, each under its key. A look has the
/// neighbours; a report has the free nodes, the open links, the pairs and the privileged nodes; and a close has the
/// nodes that moved.
#[tactic(auto, using(crate::proofs::ListsLemmas::read_lists))]
pub fn replies_have_these_lists()
    ensures { (ids : List ℕ) (roster : RosterValue) (r : Reply) (d : Data) →
        IsTable ids → IsRoster roster → IsAbout ids roster r → AreWritableCounts roster r →
        read (written.text ids roster r) ≡ Some d → HasLists d (listed ids r) }
{}
