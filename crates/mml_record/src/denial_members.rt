//! Finds the members of a denial's text that name its clause and its name. A member is a key with its value. A clause
//! is a condition for a request, and a denial names the first that doesn't hold. The clause is the first member of
//! the reply, or the second after `at`, and the name follows it. So a denial begins like
//! `{"clause":1,"deny":"hidden"` or `{"at":7,"clause":2,"deny":"stale"`.
ghost use Rattle.std.specs.Prelude.{◌≡◌};
ghost use Rattle.mml_journal.specs.Words.{seen};
ghost use Rattle.mml_record.specs.DenialMembers.{after_comma, denial_members, from_clause, if_clause};

use mml_journal::split_at_byte;

/// Returns `members`, which are members of a reply, if the first of them is `clause`. Otherwise returns `None`.
#[tactic(auto, unfolding(crate::specs::DenialMembers::if_clause))]
fn if_clause(members: &[u8]) -> Option<&[u8]>
    ensures { seen result ≡ if_clause members.now }
{
    let (word, _) = split_at_byte(members, b':');
    if word == b"\"clause\"".as_slice() {
        Some(members)
    } else {
        None
    }
}

/// Returns the members after the first comma, if the first of these is `clause`. Otherwise returns `None`, also if
/// there is no comma.
#[tactic(auto, unfolding(crate::specs::DenialMembers::after_comma))]
fn after_comma(members: &[u8]) -> Option<&[u8]>
    ensures { seen result ≡ after_comma members.now }
{
    let (_, rest) = split_at_byte(members, b',');
    let rest = rest?;
    if_clause(rest)
}

/// Returns the members of a reply from `clause` on, if `clause` is the first of them, or the second after `at`.
/// Otherwise returns `None`.
#[tactic(auto, unfolding(crate::specs::DenialMembers::from_clause))]
fn from_clause(members: &[u8]) -> Option<&[u8]>
    ensures { seen result ≡ from_clause members.now }
{
    let (word, _) = split_at_byte(members, b':');
    if word == b"\"at\"".as_slice() {
        after_comma(members)
    } else {
        if_clause(members)
    }
}

/// Returns the members of a reply's text from `clause` on, or `None` if the reply is no denial.
#[tactic(auto, unfolding(crate::specs::DenialMembers::denial_members))]
pub(crate) fn denial_members(text: &[u8]) -> Option<&[u8]>
    ensures { seen result ≡ denial_members text.now }
{
    let (_, members) = split_at_byte(text, b'{');
    let members = members?;
    from_clause(members)
}
