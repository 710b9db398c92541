//! Laws of the lab. Each is the contract of a function that does nothing.
//!
//! The rank of a node is its index in the rising order of identifiers. The roster has the teacher, the students, and
//! the owners of each node. It is valid (`IsRoster`) if there are at most 256 students, names and keys are well-formed,
//! names differ, and all owners are students.
ghost use Rattle.std.specs.Prelude.{◌≡◌, ◌↔◌, ℕ, ◌<◌, List, length, true, false, Contains, Some, None};
ghost use Rattle.mml_lab.specs.declared.TheConstants.{MAX_NAME, MAX_KEY, MAX_EVENTS, MAX_SESSIONS, MAX_STUDENTS, MAX_OWNERS};
ghost use Rattle.mml_lab.specs.declared.who.Who.{Who};
ghost use Rattle.mml_lab.specs.Rosters.{RosterValue, IsRoster, principal, owns, owners_of, name_of, student_named, is_name, is_key};
ghost use Rattle.mml_lab.specs.RosterMeaning.{IsKnownAs, IsName, IsKey};

/// In a valid roster, `principal` returns a participant exactly if this participant has the given name and key. It
/// returns `None` exactly if nobody has both.
#[tactic(auto, using(crate::proofs::RosterMeaningLemmas::of_rosters))]
pub fn principal_is_the_one_known()
    ensures one { (r : RosterValue) (name key : List ℕ) (w : Who) → IsRoster r →
        (principal r name key ≡ Some w) ↔ IsKnownAs r w name key }
    ensures nobody { (r : RosterValue) (name key : List ℕ) → IsRoster r →
        (principal r name key ≡ None) ↔ ((w : Who) → ¬ IsKnownAs r w name key) }
{}

/// A student owns a node exactly if the student is among its owners, and the teacher owns none.
#[tactic(auto, using(crate::proofs::RosterMeaningLemmas::of_rosters))]
pub fn owns_means_owner()
    ensures student { (r : RosterValue) (s i : ℕ) →
        (owns r (Who.Student s) i ≡ true) ↔ Contains (owners_of r i) s }
    ensures teacher { (r : RosterValue) (i : ℕ) → owns r Who.Teacher i ≡ false }
{}

/// In a valid roster, looking up a student's name finds that student. In any roster, a student who is found by a name
/// has that name.
#[tactic(auto, using(crate::proofs::RosterMeaningLemmas::student_of_name, crate::proofs::RosterMeaningLemmas::name_of_student))]
pub fn names_and_students_are_inverse()
    ensures student_of_name { (r : RosterValue) (s : ℕ) → IsRoster r → s < length r.students →
        student_named r (name_of r (Who.Student s)) ≡ Some s }
    ensures name_of_student { (r : RosterValue) (name : List ℕ) (s : ℕ) →
        student_named r name ≡ Some s → name_of r (Who.Student s) ≡ name }
{}

/// The tests `is_name` and `is_key` are true exactly for well-formed names and keys.
#[tactic(auto, using(crate::proofs::FormLemmas::forms))]
pub fn forms_mean_facts()
    ensures name { (name : List ℕ) → (is_name name ≡ true) ↔ IsName name }
    ensures key { (key : List ℕ) → (is_key key ≡ true) ↔ IsKey key }
{}

/// The values of the limits. A name has at most 32 bytes, and a key at most 64. A lab has at most 100000 events, 16
/// sessions and 256 students. A node has at most two owners.
pub fn labs_have_limits()
    ensures name { MAX_NAME ≡ 32 }
    ensures key { MAX_KEY ≡ 64 }
    ensures events { MAX_EVENTS ≡ 100000 }
    ensures sessions { MAX_SESSIONS ≡ 16 }
    ensures students { MAX_STUDENTS ≡ 256 }
    ensures owners { MAX_OWNERS ≡ 2 }
{}
