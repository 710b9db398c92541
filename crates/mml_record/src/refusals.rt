//! Finds the reasons of refusals in the replies of a record.
//!
//! A refusal is a reply that says why a request was neither granted nor denied, for example `full` or `memory`.
ghost use Rattle.std.specs.Prelude.{◌≡◌};
ghost use Rattle.mml_record.specs.Refusals.{reason_told};

use mml_policy::Refusal;

/// Returns the reason of a refusal, if `text` is the reply that refuses for `journal`, `memory` or `full`. Returns
/// `None` for any other text, such as the refusal of a malformed line.
#[tactic(auto, unfolding(crate::specs::Refusals::reason_told))]
pub(crate) fn reason_told(text: &[u8]) -> Option<Refusal>
    ensures { result ≡ reason_told text.now }
{
    if text == b"{\"refuse\":\"journal\"}".as_slice() {
        Some(Refusal::Journal)
    } else if text == b"{\"refuse\":\"memory\"}".as_slice() {
        Some(Refusal::Memory)
    } else if text == b"{\"refuse\":\"full\"}".as_slice() {
        Some(Refusal::Full)
    } else {
        None
    }
}
