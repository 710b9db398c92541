//! Finds the names of denials in the replies of a record, for those denials that a known student can get. A student
//! is known on a connection from a granted hello to the bye. In a reply the name follows the number of the clause, as
//! in `"clause":1,"deny":"hidden"` (see `denial_members`). A member of a reply is a key with its value.
ghost use Rattle.std.specs.Prelude.{◌≡◌};
ghost use Rattle.mml_record.specs.DenialNames.{denial_word, denial_after, denial_told};

use crate::denial_members::denial_members;
use mml_journal::split_at_byte;
use mml_tally::StudentDenial;

/// Returns the denial that a member of a reply names, such as `"deny":"stale"`. Returns `None` for any other member,
/// and for a denial that isn't listed here.
#[tactic(auto, unfolding(crate::specs::DenialNames::denial_word))]
fn denial_word(member: &[u8]) -> Option<StudentDenial>
    ensures { result ≡ denial_word member.now }
{
    if member == b"\"deny\":\"greeted\"".as_slice() {
        Some(StudentDenial::Greeted)
    } else if member == b"\"deny\":\"hidden\"".as_slice() {
        Some(StudentDenial::Hidden)
    } else if member == b"\"deny\":\"not-owner\"".as_slice() {
        Some(StudentDenial::NotOwner)
    } else if member == b"\"deny\":\"not-teacher\"".as_slice() {
        Some(StudentDenial::NotTeacher)
    } else if member == b"\"deny\":\"stale\"".as_slice() {
        Some(StudentDenial::Stale)
    } else if member == b"\"deny\":\"chosen\"".as_slice() {
        Some(StudentDenial::Chosen)
    } else if member == b"\"deny\":\"guard\"".as_slice() {
        Some(StudentDenial::Guard)
    } else {
        None
    }
}

/// Returns the denial that the second of `members` names; the first is the clause. Returns `None` if there is no comma,
/// or the second member names none of the listed denials.
#[tactic(auto, unfolding(crate::specs::DenialNames::denial_after))]
fn denial_after(members: &[u8]) -> Option<StudentDenial>
    ensures { result ≡ denial_after members.now }
{
    let (_, rest) = split_at_byte(members, b',');
    let rest = rest?;
    let (member, _) = split_at_byte(rest, b',');
    denial_word(member)
}

/// Returns the denial in a reply's text. Returns `None` if the reply is no denial, or is one that a known student can't
/// get.
pub(crate) fn denial_told(text: &[u8]) -> Option<StudentDenial>
    ensures { result ≡ denial_told text.now }
{
    let members = denial_members(text)?;
    denial_after(members)
}
