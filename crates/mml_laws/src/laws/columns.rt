//! The columns of a tally. Each law is the contract of a function that does nothing.
//!
//! A clause is a condition for a request; a denial names the first that doesn't hold. The tally counts a student's
//! denied lines by clause and by the name of the denial. The record of a class has the lines of all seats with their
//! replies; a seat serves one connection after another. A participant has greeted on a connection from a granted hello
//! to the bye.
ghost use Rattle.std.specs.Prelude.{◌≡◌, ◌==◌, ◌+◌, ◌++◌, ◌∷◌, [], ℕ, List, true, codes, length, count_by};
ghost use Rattle.mml_lab.specs.Labs.{LabValue};
ghost use Rattle.mml_board.specs.declared.event.Event.{Event};
ghost use Rattle.mml_board.specs.World.{World, configuration, privileged_count};
ghost use Rattle.mml_convergence.specs.Potential.{sum_below};
ghost use Rattle.mml_tally.specs.declared.ask.Denials.{Denials};
ghost use Rattle.mml_tally.specs.declared.bounds.Bounds.{Bounds};
ghost use Rattle.mml_tally.specs.declared.marks.ByRule.{ByRule};
ghost use Rattle.mml_tally.specs.declared.marks.Marks.{Marks};
ghost use Rattle.mml_tally.specs.declared.run.Run.{Run};
ghost use Rattle.mml_tally.specs.declared.refusals.Refusals.{Refusals};
ghost use Rattle.mml_tally.specs.Texts.{numbers_text, place_text, stable_text, student_line, owner_text, bounds_line, run_line};
ghost use Rattle.mml_tally.specs.Refusals.{refused_line};
ghost use Rattle.mml_tally.specs.declared.student_denials.NamedDenials.{NamedDenials};
ghost use Rattle.mml_tally.specs.Asks.{denials_of, is_malformed};
ghost use Rattle.mml_tally.specs.AskMeaning.{AreAsksOf, asks_of_others, is_denied, total_denied};
ghost use Rattle.mml_tally.specs.RecordTexts.{denied_line};
ghost use Rattle.mml_tally.specs.StudentDenials.{denials_line, named_of, AreNamed, AreSums};
ghost use Rattle.mml_class.specs.declared.class_record.ClassRecord.{ClassRecord};
ghost use Rattle.mml_class.specs.Classes.{IsClassRecord};

/// The lines of a tally have these columns, in this order. A student's line has the granted moves by rule, the applied
/// moves by rule, and the number of closes that applied one. Then the line has the places of the first and the last
/// grant, and the applied moves at shared nodes. In a node's line, each owner has the moves by rule. The line `bounds`
/// has the most moves, rounds and events that may follow. The line `run` has the number of events, the number of the
/// configuration, whether the configuration is stable, and the counts of the run. The line of a student's denials by
/// clause has those of clauses 1 to 4, and then the number of lines that were no request. The line of a student's
/// refusals has those for `journal`, `memory` and `full`. The line that counts each of a student's denials has those of
/// clause 1 first, and then those of clauses 2, 3 and 4.
pub fn tallies_have_these_columns()
    ensures student { (name : List ℕ) (m : Marks) → student_line name m ≡ codes "student " ++ (name
        ++ ((numbers_text (m.granted.update ∷ m.granted.marriage ∷ m.granted.seduction ∷ m.granted.abandonment ∷ [])
        ++ (numbers_text (m.applied.update ∷ m.applied.marriage ∷ m.applied.seduction ∷ m.applied.abandonment ∷ [])
        ++ (numbers_text (m.closes ∷ []) ++ (place_text m.first ++ (place_text m.last ++ numbers_text (m.shared ∷ []))))))
        ++ codes "\n")) }
    ensures owner { (name : List ℕ) (n : ByRule) → owner_text name n ≡ codes " " ++ (name
        ++ numbers_text (n.update ∷ n.marriage ∷ n.seduction ∷ n.abandonment ∷ [])) }
    ensures bounds { (b : Bounds) → bounds_line b ≡ codes "bounds"
        ++ (numbers_text (b.moves ∷ b.rounds ∷ b.events ∷ []) ++ codes "\n") }
    ensures run { (w : World) (r : Run) → run_line w r ≡ codes "run"
        ++ (numbers_text (w.place ∷ w.number ∷ [])
        ++ (stable_text (privileged_count (configuration w) == 0)
        ++ (numbers_text (r.closes ∷ r.faults ∷ r.links ∷ r.cuts ∷ r.moves ∷ r.moves_since ∷ r.closes_since ∷ [])
        ++ codes "\n"))) }
    ensures denied { (name : List ℕ) (d : Denials) → denied_line name d ≡ codes "denied " ++ (name
        ++ (numbers_text (d.first ∷ d.second ∷ d.third ∷ d.fourth ∷ d.malformed ∷ []) ++ codes "\n")) }
    ensures refused { (name : List ℕ) (n : Refusals) → refused_line name n ≡ codes "refused " ++ (name
        ++ (numbers_text (n.journal ∷ n.memory ∷ n.full ∷ []) ++ codes "\n")) }
    ensures denials { (name : List ℕ) (n : NamedDenials) → denials_line name n ≡ codes "denials " ++ (name
        ++ (numbers_text (n.greeted ∷ n.hidden ∷ n.not_owner ∷ n.not_teacher ∷ n.stale ∷ n.chosen ∷ n.guard ∷ [])
        ++ codes "\n")) }
{}

/// In the record of a class, over all its seats, a denied line of a student is counted under the clause of the denial
/// that its reply names. So in the tally of the class, the number of a student's lines that a clause denied is the sum
/// of the numbers for the clause's denials.
pub fn columns_are_sums_in_a_class()
    ensures named { (lab : LabValue) (l : List Event) (start : List ℕ) (texts : ℕ → List ℕ) (c : ClassRecord) →
        IsClassRecord lab l true start texts c → AreNamed c.asks.items }
    ensures sums { (lab : LabValue) (l : List Event) (start : List ℕ) (texts : ℕ → List ℕ) (c : ClassRecord) (s : ℕ) →
        IsClassRecord lab l true start texts c → AreSums (denials_of c.asks.items s) (named_of c.asks.items s) }
{}

/// In the record of a class, over all its seats together, each student who has greeted is one of the lab's students.
/// Only the clauses from 1 to 4 deny such a student anything. So each line that was denied, and each that was no
/// request, is counted for one student, or came while the teacher or nobody had greeted on its connection.
pub fn asks_of_a_class_are_of_the_labs_students()
    ensures asks { (lab : LabValue) (l : List Event) (start : List ℕ) (texts : ℕ → List ℕ) (c : ClassRecord) →
        IsClassRecord lab l true start texts c → AreAsksOf (length lab.roster.students) c.asks.items }
    ensures denied { (lab : LabValue) (l : List Event) (start : List ℕ) (texts : ℕ → List ℕ) (c : ClassRecord) →
        IsClassRecord lab l true start texts c →
        sum_below (length lab.roster.students) (λ s. total_denied (denials_of c.asks.items s))
        + count_by is_denied (asks_of_others c.asks.items) ≡ count_by is_denied c.asks.items }
    ensures malformed { (lab : LabValue) (l : List Event) (start : List ℕ) (texts : ℕ → List ℕ) (c : ClassRecord) →
        IsClassRecord lab l true start texts c →
        sum_below (length lab.roster.students) (λ s. (denials_of c.asks.items s).malformed)
        + count_by (λ a. is_malformed a.line) (asks_of_others c.asks.items)
        ≡ count_by (λ a. is_malformed a.line) c.asks.items }
{}
