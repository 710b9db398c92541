//! The values of keys in a line of JSON, as far as requests use them.
//!
//! A member of an object is a key with its value.
ghost use Rattle.std.specs.Prelude.{◌≡◌, None, Some, false, true, option_map, slice_index, ◌==◌};
ghost use Rattle.serde_json.specs.Data.{Num, number};
ghost use Rattle.serde_json.specs.Find.{as_u64};
ghost use Rattle.serde_json.specs.Read.{number_of, number_from, float_of};
ghost use Rattle.mml_plain.specs.Shown.{Shows};
ghost use Rattle.mml_plain.specs.Fields.{text_in, number_in, truth_in, register_in};

use fast_float::Numeral;

/// The value of a member of an object, as far as a request may use it.
#[derive(Clone, Copy, Drop)]
pub(crate) enum MemberValue<'a> {
    Null,
    Truth(bool),
    /// A number of 64 bits, without a sign, a point or an exponent.
    Number(u64),
    Text(&'a str),
    /// Another number, an array or an object.
    Other,
}

impl<'a> MemberValue<'a> {
    /// Returns the value for a JSON number. `found` is the number if it fits 64 bits and is written without a sign, a
    /// point or an exponent, as a request's numbers are. If `found` is `None`, the value is `Other`.
    #[tactic(auto, using(crate::proofs::ReadingLemmas::shows_number, crate::proofs::ReadingLemmas::shows_other_number))]
    #[inline(always)]
    pub(crate) fn of_number(found: Option<u64>) -> MemberValue<'a>
        ensures { (n : Num) → as_u64 n ≡ found → Shows result (number n) }
    {
        match found {
            Some(number) => MemberValue::Number(number),
            None => MemberValue::Other,
        }
    }

    /// Returns the value's text, or `None` if the value isn't a text.
    #[inline(always)]
    pub(crate) fn text(&self) -> Option<&'a str>
        ensures { result ≡ text_in self.now }
    {
        match *self {
            MemberValue::Text(text) => Some(text),
            _ => None,
        }
    }

    /// Returns the value's number, or `None` if the value isn't a number of 64 bits.
    #[inline(always)]
    pub(crate) fn number(&self) -> Option<u64>
        ensures { result ≡ number_in self.now }
    {
        match *self {
            MemberValue::Number(number) => Some(number),
            _ => None,
        }
    }

    /// Returns the truth value, or `None` if the value isn't `true` or `false`.
    #[inline(always)]
    pub(crate) fn truth(&self) -> Option<bool>
        ensures { result ≡ truth_in self.now }
    {
        match *self {
            MemberValue::Truth(truth) => Some(truth),
            _ => None,
        }
    }

    /// Returns what the register p is to be set to by this value. The result is `Some(Some(number))` for a number,
    /// which is the identifier of a node, and `Some(None)` for null. Returns `None` if the value is neither a number of
    /// 64 bits nor null.
    #[inline(always)]
    pub(crate) fn register(&self) -> Option<Option<u64>>
        ensures { result ≡ register_in self.now }
    {
        match *self {
            MemberValue::Null => Some(None),
            MemberValue::Number(number) => Some(Some(number)),
            _ => None,
        }
    }
}

/// Reads the text of a JSON number, as `serde_json` does. Returns `Some(Some(number))` if the number fits 64 bits and
/// is written without a sign, a point or an exponent. Returns `Some(None)` for any other number, which no request uses.
/// Returns `None` for a number that is too great for a float, which `serde_json` refuses.
#[tactic(auto, unfolding(serde_json::specs::Read::number_of))]
#[inline(always)]
pub(crate) fn read_number(text: &str) -> Option<Option<u64>>
    ensures { result ≡ option_map as_u64 (number_of text.now) }
{
    let bytes = text.as_bytes();
    if has_minus(bytes) {
        below_zero(&Numeral::scan(&bytes[1..]))
    } else {
        unsigned(&Numeral::scan(bytes))
    }
}

/// Returns what `read_number` returns for the number `numeral`, which has no minus. The result is `Some(Some(number))`
/// for an integer that fits 64 bits, and `Some(None)` for a number that is read as a float. It is `None` for a number
/// that is too great for a float.
#[inline(always)]
fn unsigned(numeral: &Numeral<'_>) -> Option<Option<u64>>
    ensures { result ≡ option_map as_u64 (number_from false numeral.now) }
{
    match numeral.to_u64() {
        Some(number) => Some(Some(number)),
        None => float(false, numeral),
    }
}

/// Returns what `read_number` returns for a number with a minus; `numeral` is the part after the minus. The result is
/// `Some(None)`, since no request has such a number, or `None` if the number is too great for a float. To save time, an
/// integer below 0 that fits 64 bits isn't read as a float. -0 is read as a float, as in `serde_json`.
#[inline(never)]
fn below_zero(numeral: &Numeral<'_>) -> Option<Option<u64>>
    ensures { result ≡ option_map as_u64 (number_from true numeral.now) }
{
    if let Some(number) = numeral.to_i64(true) {
        if number < 0 {
            return Some(None);
        }
    }
    float(true, numeral)
}

/// Returns what `read_number` returns for a number that is read as a float, with a minus before `numeral` if `negative`
/// is set. The result is `Some(None)`, since no request has a float, or `None` if the number is too great for one.
#[inline(never)]
fn float(negative: bool, numeral: &Numeral<'_>) -> Option<Option<u64>>
    ensures { result ≡ option_map as_u64 (float_of negative numeral.now) }
{
    let float: f64 = numeral.to_float(negative);
    if float.is_finite() { Some(None) } else { None }
}

/// Returns whether the text of a number begins with a minus.
#[inline(always)]
fn has_minus(bytes: &[u8]) -> bool
    ensures { result ≡ (slice_index bytes.now 0 == 45) }
{
    !bytes.is_empty() && bytes[0] == b'-'
}
