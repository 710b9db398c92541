//! The forms of keys, and of names and keys together.
ghost use Rattle.std.specs.Prelude.{◌≡◌, ◌∷◌, ◌<◌, not, position, map, length, IfSome};
ghost use Rattle.std.specs.List.{list_all};
ghost use Rattle.std.specs.Char.{is_ascii_graphic};
ghost use Rattle.mml_lab.specs.AccountView.{account_view};
ghost use Rattle.mml_lab.specs.Rosters.{is_key, is_account};

use mml_lab::{Account, MAX_KEY, is_name};

/// Returns whether the bytes have the form of a key: 1 to 64 visible ASCII characters, without spaces.
fn is_key(key: &[u8]) -> bool
    ensures { result ≡ is_key key.now }
{
    !key.is_empty() && key.len() as u64 <= MAX_KEY && are_graphic(key)
}

/// Returns whether each byte is a visible ASCII character, from 33 to 126.
fn are_graphic(bytes: &[u8]) -> bool
    ensures { result ≡ list_all is_ascii_graphic bytes.now }
{
    bytes.iter().all(|byte| byte.is_ascii_graphic())
}

/// Returns whether both the name and the key of an account are well-formed.
fn is_account(account: &Account) -> bool
    ensures { result ≡ is_account (account_view account.now) }
{
    is_name(account.name.as_bytes()) && is_key(account.key.as_bytes())
}

/// Returns the index of the first participant whose name or key isn't well-formed, or `None` if all are well-formed.
/// The teacher has the index 0, and the students count from 1.
pub(crate) fn first_malformed(teacher: &Account, students: &[Account]) -> Option<usize>
    ensures { result ≡ position (λ a. not (is_account a))
        (account_view teacher.now ∷ map account_view students.now) }
{
    if !is_account(teacher) {
        return Some(0);
    }
    first_malformed_student(students).map(|index| index + 1)
}

/// Returns the index, from 0, of the first student whose name or key isn't well-formed, or `None` if all are
/// well-formed.
fn first_malformed_student(students: &[Account]) -> Option<usize>
    ensures value { result ≡ position (λ a. not (is_account (account_view a))) students.now }
    ensures within { IfSome result (λ index. index < length students.now) }
{
    students.iter().position(|student| !is_account(student))
}
