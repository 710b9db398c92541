//! Names and keys, and the form of names.
ghost use Rattle.std.specs.Prelude.{◌≡◌};
ghost use Rattle.std.specs.List.{list_all};
ghost use Rattle.mml_lab.specs.Rosters.{is_name_byte, is_name};

use crate::MAX_NAME;

/// A participant's name, and the secret key that belongs to it.
#[derive(Drop)]
pub struct Account {
    pub name: String,
    pub key: String,
}

/// Returns whether a byte may occur in a name: whether it is a to z, 0 to 9 or '-'.
fn is_name_byte(byte: u8) -> bool
    ensures { result ≡ is_name_byte byte }
{
    byte.is_ascii_lowercase() || byte.is_ascii_digit() || byte == b'-'
}

/// Returns whether the bytes have the form of a name: 1 to 32 characters, each a to z, 0 to 9 or '-'. The first must be
/// a letter.
pub fn is_name(name: &[u8]) -> bool
    ensures { result ≡ is_name name.now }
{
    if name.is_empty() {
        return false;
    }
    let begins = name[0].is_ascii_lowercase();
    begins && are_name_bytes(&name[1..]) && name.len() as u64 <= MAX_NAME
}

/// Returns whether each byte may occur in a name.
fn are_name_bytes(bytes: &[u8]) -> bool
    ensures { result ≡ list_all is_name_byte bytes.now }
{
    bytes.iter().all(|byte| is_name_byte(*byte))
}
