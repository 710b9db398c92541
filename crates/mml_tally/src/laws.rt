//! Laws of the tally. Each is the contract of a function that does nothing.
//!
//! A grant chooses a move for a node, a release drops it, and a close applies all chosen moves at once. A fault sets a
//! node's registers, a link joins two nodes, and a cut removes a link. A granted move is applied by the next close,
//! unless a release, a fault, a link or a cut drops it before. A mark is what the tally counts for a student. The place
//! of an event is its number in the list of events, from 1. A node is privileged if some rule is enabled there. A
//! round is a list of events in which each node has its turn: at some point it isn't privileged, or a close applies
//! its move. A clause is a condition for a request. A list of events is legal if the rules allow each event after the
//! earlier ones. `IsLab` and `IsWorld` say that a lab and a world are valid.
ghost use Rattle.std.specs.Prelude.{◌≡◌, ◌↔◌, ◌≤◌, ◌+◌, ℕ, true, List, length, map, count_by};
ghost use Rattle.std.specs.List.{list_all};
ghost use Rattle.mml_rules.specs.Matching.{IsStable};
ghost use Rattle.mml_lab.specs.Labs.{LabValue, IsLab};
ghost use Rattle.mml_lab.specs.Rosters.{RosterValue};
ghost use Rattle.mml_board.specs.declared.event.Event.{Event};
ghost use Rattle.mml_board.specs.World.{World, IsWorld, configuration, opening_of};
ghost use Rattle.mml_board.specs.Runs.{is_legal_list, world_of};
ghost use Rattle.mml_convergence.specs.Potential.{sum_below};
ghost use Rattle.mml_convergence.specs.Runs.{is_of_step};
ghost use Rattle.mml_convergence.specs.Moves.{applied_over};
ghost use Rattle.mml_convergence.specs.Rounds.{Rounds};
ghost use Rattle.mml_tally.specs.declared.fate.Fate.{Fate};
ghost use Rattle.mml_tally.specs.Moves.{fate_of, moves};
ghost use Rattle.mml_tally.specs.Marks.{moves_by, marks_of};
ghost use Rattle.mml_tally.specs.Runs.{run_of};
ghost use Rattle.mml_tally.specs.Bounds.{bounds_of};
ghost use Rattle.mml_tally.specs.Rounds.{rounds_in, rounds_since};
ghost use Rattle.mml_tally.specs.declared.ask.Ask.{Ask};
ghost use Rattle.mml_tally.specs.Asks.{denials_of, moves_asked_by, is_malformed};
ghost use Rattle.mml_policy.specs.declared.refusal.Refusal.{Refusal};
ghost use Rattle.mml_tally.specs.Refusals.{is_refused, refusals_of};
ghost use Rattle.mml_tally.specs.StudentDenials.{named_of, AreNamed, AreSums};
ghost use Rattle.mml_tally.specs.AskMeaning.{asks_of_others, is_denied, total_denied, AreAsksOf, asked_under};
ghost use Rattle.mml_tally.specs.Meaning.{IsNextClose, total, is_released, is_dropped, is_left, asked_as};

/// A move that is granted at node i is applied at place p exactly if the event at place p is a close, and no event after
/// the grant and before place p ends the move. A move at node i is ended by a release of i, and by any close, fault,
/// link or cut. The law is about the events after the grant, of which the first has place q.
pub fn moves_are_applied_by_the_next_close()
    ensures { (i q p : ℕ) (es : List Event) →
        (fate_of i q es ≡ Fate.Applied p) ↔ IsNextClose i q p es }
{}

/// If a lab's list of events is legal, the applied moves of all students together are as many as its closes apply. The
/// tally's line of the run has the same number.
pub fn students_apply_all_moves()
    ensures students { (lab : LabValue) (es : List Event) → IsLab lab →
        is_legal_list lab.roster (opening_of lab.network) es ≡ true →
        sum_below (length lab.roster.students) (λ s. total (marks_of lab.roster es s).applied)
        ≡ applied_over (opening_of lab.network) es }
    ensures run { (lab : LabValue) (es : List Event) → IsLab lab →
        is_legal_list lab.roster (opening_of lab.network) es ≡ true →
        (run_of es).moves ≡ applied_over (opening_of lab.network) es }
{}

/// The tally's line `run` never has more moves since the last fault, link or cut than its line `bounds` has moves. If
/// the two numbers are equal, no node is privileged.
pub fn moves_since_are_within_the_most()
    ensures within { (lab : LabValue) (es : List Event) → IsLab lab →
        is_legal_list lab.roster (opening_of lab.network) es ≡ true →
        (run_of es).moves_since ≤ (bounds_of (world_of (opening_of lab.network) es)).moves }
    ensures stable { (lab : LabValue) (es : List Event) → IsLab lab →
        is_legal_list lab.roster (opening_of lab.network) es ≡ true →
        (bounds_of (world_of (opening_of lab.network) es)).moves ≤ (run_of es).moves_since →
        IsStable (configuration (world_of (opening_of lab.network) es)) }
{}

/// The rounds since the last fault, link or cut are never more than the rounds in the tally's line `bounds`. If the two
/// numbers are equal, no node is privileged.
pub fn rounds_since_are_within_the_most()
    ensures within { (lab : LabValue) (es : List Event) → IsLab lab →
        is_legal_list lab.roster (opening_of lab.network) es ≡ true →
        rounds_since (opening_of lab.network) es
        ≤ (bounds_of (world_of (opening_of lab.network) es)).rounds }
    ensures stable { (lab : LabValue) (es : List Event) → IsLab lab →
        is_legal_list lab.roster (opening_of lab.network) es ≡ true →
        (bounds_of (world_of (opening_of lab.network) es)).rounds
        ≤ rounds_since (opening_of lab.network) es →
        IsStable (configuration (world_of (opening_of lab.network) es)) }
{}

/// Any list of events begins with as many rounds, one after another, as `rounds_in` counts in it. A legal list of
/// grants, releases and closes has no more rounds than that if it ends with a privileged node.
pub fn as_many_rounds_are_counted_as_there_are()
    ensures there { (w : World) (es : List Event) → Rounds (rounds_in w es) w es }
    ensures most { (r : RosterValue) (w : World) (es : List Event) (k : ℕ) → IsWorld w →
        is_legal_list r w es ≡ true → list_all is_of_step es ≡ true → Rounds k w es →
        ¬ IsStable (configuration (world_of w es)) → k ≤ rounds_in w es }
{}

/// Over a run, the number of the configuration grows by one for each close, fault, link and cut that the tally counts.
pub fn changes_of_a_run_are_its_configurations()
    ensures { (w : World) (es : List Event) → (world_of w es).number ≡ w.number
        + ((run_of es).closes + (run_of es).faults + (run_of es).links + (run_of es).cuts) }
{}

/// Each granted move of a student was applied, was released, was dropped by a fault, a link or a cut, or is still
/// chosen.
pub fn granted_moves_have_one_fate()
    ensures { (r : RosterValue) (es : List Event) (s : ℕ) →
        total (marks_of r es s).granted ≡ total (marks_of r es s).applied
        + count_by is_released (moves_by s (moves es)) + count_by is_dropped (moves_by s (moves es))
        + count_by is_left (moves_by s (moves es)) }
{}

/// If the tally counts no close for a student, it counts no applied move of the student. So a student with an applied
/// move has at least one close.
pub fn who_has_no_close_has_no_applied_move()
    ensures { (r : RosterValue) (es : List Event) (s : ℕ) →
        (marks_of r es s).closes ≡ 0 → total (marks_of r es s).applied ≡ 0 }
{}

/// The marks of the student `s` don't depend on who was granted the other moves. `f` maps each student to the one who
/// replaces it in all events: `s` to `s`, and no other student to `s`. Several students may be replaced by the same
/// one.
pub fn marks_depend_on_no_other_name()
    ensures { (r : RosterValue) (es : List Event) (s : ℕ) (f : ℕ → ℕ) →
        ((t : ℕ) → (f t ≡ s) ↔ (t ≡ s)) → marks_of r (map (asked_as f) es) s ≡ marks_of r es s }
{}

/// A participant is known on a connection from a granted hello to the bye. Each line that was denied or wasn't a
/// request is counted for exactly one student, unless it came while the teacher or nobody was known.
pub fn denials_are_of_one_student()
    ensures denied { (n : ℕ) (asks : List Ask) → AreAsksOf n asks →
        sum_below n (λ s. total_denied (denials_of asks s)) + count_by is_denied (asks_of_others asks)
        ≡ count_by is_denied asks }
    ensures malformed { (n : ℕ) (asks : List Ask) → AreAsksOf n asks →
        sum_below n (λ s. (denials_of asks s).malformed)
        + count_by (λ a. is_malformed a.line) (asks_of_others asks)
        ≡ count_by (λ a. is_malformed a.line) asks }
{}

/// Each line that was refused is counted under its reason for exactly one student, unless it came while the teacher or
/// nobody was known on its connection.
pub fn refusals_are_of_one_student()
    ensures journal { (n : ℕ) (asks : List Ask) → AreAsksOf n asks →
        sum_below n (λ s. (refusals_of asks s).journal)
        + count_by (λ a. is_refused Refusal.Journal a.refused) (asks_of_others asks)
        ≡ count_by (λ a. is_refused Refusal.Journal a.refused) asks }
    ensures memory { (n : ℕ) (asks : List Ask) → AreAsksOf n asks →
        sum_below n (λ s. (refusals_of asks s).memory)
        + count_by (λ a. is_refused Refusal.Memory a.refused) (asks_of_others asks)
        ≡ count_by (λ a. is_refused Refusal.Memory a.refused) asks }
    ensures full { (n : ℕ) (asks : List Ask) → AreAsksOf n asks →
        sum_below n (λ s. (refusals_of asks s).full)
        + count_by (λ a. is_refused Refusal.Full a.refused) (asks_of_others asks)
        ≡ count_by (λ a. is_refused Refusal.Full a.refused) asks }
{}

/// Let each line have the number of a clause and a denial that belongs to this clause, or neither. Then the number of a
/// student's lines that a clause denied is the sum of the counts of the denials that belong to this clause.
pub fn columns_are_sums_of_denials()
    ensures { (asks : List Ask) (s : ℕ) → AreNamed asks → AreSums (denials_of asks s) (named_of asks s) }
{}

/// The counts for the lines of the student `s` don't depend on who sent the other lines. These are the counts of denied
/// and malformed lines, of each denial, of refusals, and of the moves that `s` asked for at a node. `f` maps each
/// student to the one who replaces it in all lines: `s` to `s`, and no other student to `s`.
pub fn asks_depend_on_no_other_name()
    ensures denied { (asks : List Ask) (s : ℕ) (f : ℕ → ℕ) → ((t : ℕ) → (f t ≡ s) ↔ (t ≡ s)) →
        denials_of (map (asked_under f) asks) s ≡ denials_of asks s }
    ensures refused { (asks : List Ask) (s : ℕ) (f : ℕ → ℕ) → ((t : ℕ) → (f t ≡ s) ↔ (t ≡ s)) →
        refusals_of (map (asked_under f) asks) s ≡ refusals_of asks s }
    ensures named { (asks : List Ask) (s : ℕ) (f : ℕ → ℕ) → ((t : ℕ) → (f t ≡ s) ↔ (t ≡ s)) →
        named_of (map (asked_under f) asks) s ≡ named_of asks s }
    ensures asked { (asks : List Ask) (id s : ℕ) (f : ℕ → ℕ) → ((t : ℕ) → (f t ≡ s) ↔ (t ≡ s)) →
        moves_asked_by (map (asked_under f) asks) id s ≡ moves_asked_by asks id s }
{}
