//! The number of events that came before a record, as the file `begun` in the record's folder states it. The record
//! of a class has the lines of its connections and the replies.
ghost use Rattle.std.specs.Prelude.{◌≡◌};
ghost use Rattle.mml_class.specs.Begun.{begun_in, decimal_in, unended};

use mml_journal::padded_number_of;

/// Returns the number of events before a record, from the text of the file `begun`: 1 to 19 decimal digits, with or
/// without a newline after them. Returns `None` for any other text.
#[tactic(auto, unfolding(crate::specs::Begun::begun_in))]
pub fn begun_in(text: &[u8]) -> Option<u64>
    ensures { result ≡ begun_in text.now }
{
    decimal_in(unended(text))
}

/// Returns the text without the newline at its end, if it has one.
fn unended(text: &[u8]) -> &[u8]
    ensures { result.now ≡ unended text.now }
{
    let count = text.len();
    if count > 0 && text[count - 1] == b'\n' {
        &text[..count - 1]
    } else {
        text
    }
}

/// Returns the number that these 1 to 19 decimal digits make, or `None` for other bytes. A number of 19 digits has at
/// most 64 bits.
fn decimal_in(digits: &[u8]) -> Option<u64>
    ensures { result ≡ decimal_in digits.now }
{
    if digits.len() <= 19 {
        padded_number_of(digits)
    } else {
        None
    }
}
