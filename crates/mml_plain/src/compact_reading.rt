//! Reading JSON objects in the usual layout of requests, without splitting them into tokens.
//!
//! In this layout, an object has at least one member (a key with its value). Spaces come only before keys and values.
//! Strings are ASCII without escapes, numbers have at most 19 digits and nothing else, and a value that is an array or
//! an object is empty. A frequent key is recognized by its first four bytes, which are compared as one number.
ghost use Rattle.std.specs.Prelude.{◌≡◌, ◌<◌, ◌^◌, ◌++◌, ◌∷◌, ◌+◌, ℕ, List, [], Some, IfSome, None, true, length, decimal, slice_index, IsUtf8};
ghost use Rattle.std.specs.Int.{w32, to_be_bytes};
ghost use Rattle.json.specs.Lex.{tokens};
ghost use Rattle.serde_json.specs.Data.{Members, object, no_members};
ghost use Rattle.mml_plain.specs.Reading.{object_at};
ghost use Rattle.mml_plain.specs.Holds.{Holds};
ghost use Rattle.mml_plain.specs.Compact.{is_bare, BeginsValue, BeginsAfter, BeginsQuoted, PutsKnown, PutsMember, Spaced};
ghost use Rattle.mml_plain.specs.declared.member_value.MemberValue.TheVariants.{Text, Number};

use crate::fields::Fields;
use crate::member_value::MemberValue;

// The first four bytes of each frequent key, after the quotation mark that opens it. For `do` and `at`, they include
// the quotation mark and the colon after the key, and for `key` only the mark.
const DO: u32 = 0x646f_223a;

const NODE: u32 = 0x6e6f_6465;

const AT: u32 = 0x6174_223a;

const RULE: u32 = 0x7275_6c65;

const WITH: u32 = 0x7769_7468;

const KEY: u32 = 0x6b65_7922;

const NAME: u32 = 0x6e61_6d65;

/// Reads a line into `fields`, which must be empty, if the line is an object in the usual layout. Returns true if it
/// is; then `fields` has the values of its keys. Returns false if it isn't; then `fields` may hold anything, and the
/// line may still be an object, in another layout.
#[inline(always)]
pub(crate) fn read_compact<'a>(line: &'a [u8], fields: &mut Fields<'a>) -> bool
    requires { Holds fields.old (object no_members) }
    ensures { result ≡ true → (ms : Members) × IsUtf8 line.now
        × (object_at (tokens line.now) ≡ Some ms) × Holds fields.new (object ms) }
{
    let Some(mut rest) = after_byte(line, b'{') else {
        return false;
    };
    'members: loop {
        let Some(more) = member(rest, fields) else {
            return false;
        };
        let Some(next) = after_byte(more, b',') else {
            return more.len() == 1 && more[0] == b'}';
        };
        rest = next;
    }
}

/// Reads the member of an object, a key and its value, at the front of the text into `fields`. Returns the text after
/// the member. Returns `None`, and leaves `fields` as it was, if the member isn't in the usual layout. A frequent key
/// is recognized by its first four bytes (`known_value`).
#[inline(always)]
fn member<'a>(text: &'a [u8], fields: &mut Fields<'a>) -> Option<&'a [u8]>
    ensures { IfSome result (λ rest. PutsMember text.now rest.now fields.old fields.new) }
{
    let in_key = in_quotes(text)?;
    // Only a short member at the end of the line has fewer than 8 bytes here. After this test, reading the first bytes
    // needs no bounds check.
    if in_key.len() < 8 {
        return any_member(in_key, fields);
    }
    let front = u32::from_be_bytes([in_key[0], in_key[1], in_key[2], in_key[3]]);
    if let Some(rest) = known_value(front, &in_key[4..], fields) {
        return Some(rest);
    }
    any_member(in_key, fields)
}

/// Reads a member whose key is one of the seven most frequent into `fields`, and returns the text after it. `front` has
/// the first four bytes after the quotation mark that opens the key, and `text` has what comes after them. For `do` and
/// `at`, `front` includes the quotation mark and the colon after the key, and for `key` only the mark. Returns `None`,
/// and leaves `fields` as it was, if the key is another one, or the value isn't of the key's kind in the usual layout.
#[inline(always)]
fn known_value<'a>(front: u32, text: &'a [u8], fields: &mut Fields<'a>) -> Option<&'a [u8]>
    ensures member { IfSome result (λ rest. PutsKnown (to_be_bytes w32 front ++ text.now) rest.now fields.old fields.new) }
    ensures other { result ≡ None → fields.new ≡ fields.old }
{
    if front == NODE {
        let (node, rest) = number_value(quote_and_colon(text)?)?;
        fields.node = Some(node);
        return Some(rest);
    }
    if front == AT {
        let (at, rest) = number_value(text)?;
        fields.at = Some(at);
        return Some(rest);
    }
    if front == WITH {
        let (partner, rest) = number_value(quote_and_colon(text)?)?;
        fields.with = Some(partner);
        return Some(rest);
    }
    if front == DO {
        let (word, rest) = text_value(text)?;
        fields.word = Some(word);
        return Some(rest);
    }
    if front == RULE {
        let (rule, rest) = text_value(quote_and_colon(text)?)?;
        fields.rule = Some(rule);
        return Some(rest);
    }
    if front == NAME {
        let (name, rest) = text_value(quote_and_colon(text)?)?;
        fields.name = Some(name);
        return Some(rest);
    }
    if front == KEY {
        let (key, rest) = text_value(after_byte(text, b':')?)?;
        fields.key = Some(key);
        return Some(rest);
    }
    None
}

/// Reads a member with any key into `fields`, and returns the text after it. `text` begins after the quotation mark
/// that opens the key. Returns `None`, and leaves `fields` as it was, if the member isn't in the usual layout.
#[inline(never)]
fn any_member<'a>(text: &'a [u8], fields: &mut Fields<'a>) -> Option<&'a [u8]>
    ensures { IfSome result (λ rest. (whole : List ℕ) → BeginsQuoted whole text.now →
        PutsMember whole rest.now fields.old fields.new) }
{
    let (key, at_colon) = bare_word(text)?;
    let after_key = after_byte(at_colon, b':')?;
    let at_value = unspaced(after_key);
    let (value, rest) = member_value(at_value)?;
    fields.put(key, &value);
    Some(rest)
}

/// Skips the spaces at the front, if any, and the quotation mark after them. Returns the text after the mark, or `None`
/// if there is no quotation mark. A mark without spaces before it is tried first, to save time.
#[tactic(auto, using(crate::proofs::CompactLemmas::no_space, std::proofs::lemmas::Option::IfSome_then))]
#[inline(always)]
fn in_quotes<'a>(text: &'a [u8]) -> Option<&'a [u8]>
    ensures { IfSome result (λ rest. BeginsQuoted text.now rest.now) }
{
    if let Some(rest) = after_byte(text, b'"') {
        return Some(rest);
    }
    after_byte(unspaced(text), b'"')
}

/// Skips the quotation mark and the colon that end a key, and returns the text after them. Returns `None` if the text
/// doesn't begin with both.
#[inline(always)]
fn quote_and_colon<'a>(text: &'a [u8]) -> Option<&'a [u8]>
    ensures { IfSome result (λ rest. text.now ≡ 34 ∷ 58 ∷ rest.now) }
{
    after_byte(after_byte(text, b'"')?, b':')
}

/// Skips the spaces at the front of the text after a colon, and reads the string there. Returns the string, and the
/// text after its closing quotation mark. Returns `None` if there is no string that `bare_word` reads.
#[inline(always)]
fn text_value<'a>(text: &'a [u8]) -> Option<(&'a str, &'a [u8])>
    ensures { IfSome result (λ r. BeginsAfter text.now (Text r.0) r.1.now) }
{
    bare_word(in_quotes(text)?)
}

/// Skips the spaces at the front of the text after a colon, and reads the number there. Returns the number, and the
/// text after it. Returns `None` if there is no number that `whole_number` reads.
#[inline(always)]
fn number_value<'a>(text: &'a [u8]) -> Option<(u64, &'a [u8])>
    ensures { IfSome result (λ r. BeginsAfter text.now (Number r.0) r.1.now) }
{
    whole_number(unspaced(text))
}

/// Skips one byte, which must be `byte`, and returns the text after it. Returns `None` if the text doesn't begin with
/// that byte.
#[inline(always)]
fn after_byte<'a>(text: &'a [u8], byte: u8) -> Option<&'a [u8]>
    ensures { IfSome result (λ rest. text.now ≡ byte ∷ rest.now) }
{
    if text.is_empty() || text[0] != byte {
        return None;
    }
    Some(&text[1..])
}

/// Returns the text without the spaces at its front, if it has any. Handles at most one space itself, which is the
/// frequent case, and leaves more spaces to `past_spaces`.
#[tactic(auto, using(crate::proofs::CompactLemmas::no_space, crate::proofs::CompactLemmas::one_space))]
#[inline(always)]
fn unspaced<'a>(text: &'a [u8]) -> &'a [u8]
    ensures { Spaced text.now result.now }
{
    let Some(rest) = after_byte(text, b' ') else {
        return text;
    };
    if rest.is_empty() || rest[0] != b' ' {
        return rest;
    }
    past_spaces(text)
}

/// Returns the text without the spaces at its front. `unspaced` calls it if there is more than one space, which is
/// rare.
#[tactic(auto, using(crate::proofs::CompactLemmas::no_space, crate::proofs::CompactLemmas::one_space))]
#[inline(never)]
fn past_spaces<'a>(text: &'a [u8]) -> &'a [u8]
    ensures { Spaced text.now result.now }
{
    let mut rest = text;
    'spaces: while let Some(next) = after_byte(rest, b' ') {
        rest = next;
    }
    rest
}

/// Reads the value at the front of the text: a string without escapes, a whole number, a truth value, null, or an empty
/// array or object. Returns the value, and the text after it. Returns `None` if there is no such value.
#[inline(always)]
fn member_value<'a>(text: &'a [u8]) -> Option<(MemberValue<'a>, &'a [u8])>
    ensures { IfSome result (λ r. BeginsValue text.now r.0 r.1.now) }
{
    if let Some(text) = after_byte(text, b'"') {
        let (word, rest) = bare_word(text)?;
        return Some((MemberValue::Text(word), rest));
    }
    if let Some((number, rest)) = whole_number(text) {
        return Some((MemberValue::Number(number), rest));
    }
    if let Some(text) = after_byte(text, b't') {
        let rest = after_byte(after_byte(after_byte(text, b'r')?, b'u')?, b'e')?;
        return Some((MemberValue::Truth(true), rest));
    }
    if let Some(text) = after_byte(text, b'f') {
        let rest = after_byte(
            after_byte(after_byte(after_byte(text, b'a')?, b'l')?, b's')?,
            b'e',
        )?;
        return Some((MemberValue::Truth(false), rest));
    }
    if let Some(text) = after_byte(text, b'n') {
        let rest = after_byte(after_byte(after_byte(text, b'u')?, b'l')?, b'l')?;
        return Some((MemberValue::Null, rest));
    }
    empty_value(text)
}

/// Reads the empty array or the empty object at the front of the text. Returns `MemberValue::Other`, and the text after
/// it. Returns `None` if there is neither.
#[tactic(auto, using(crate::proofs::CompactLemmas::no_items_value, crate::proofs::CompactLemmas::no_members_value))]
#[inline(always)]
fn empty_value<'a>(text: &'a [u8]) -> Option<(MemberValue<'a>, &'a [u8])>
    ensures { IfSome result (λ r. BeginsValue text.now r.0 r.1.now) }
{
    if let Some(text) = after_byte(text, b'[') {
        let rest = after_byte(text, b']')?;
        return Some((MemberValue::Other, rest));
    }
    let text = after_byte(text, b'{')?;
    let rest = after_byte(text, b'}')?;
    Some((MemberValue::Other, rest))
}

/// Reads a string from the text after the quotation mark that opens it. Returns the string, and the text after its
/// closing quotation mark. Returns `None` if there is no closing mark, or a byte before it is a backslash or isn't from
/// 32 to 127.
#[tactic(auto, using(crate::proofs::CompactLemmas::bare_above, crate::proofs::CompactLemmas::bare_below, crate::proofs::CompactLemmas::bare_utf8))]
#[inline(always)]
fn bare_word<'a>(text: &'a [u8]) -> Option<(&'a str, &'a [u8])>
    ensures { IfSome result (λ r. (text.now ≡ r.0.now ++ 34 ∷ r.1.now)
        × (is_bare r.0.now ≡ true)) }
{
    let mut end = 0usize;
    'word: while end < text.len() {
        let byte = text[end];
        // Lower-case letters are tested first, since they are the most frequent.
        if !((b'\\' < byte && byte < 128) || (31 < byte && byte < b'\\' && byte != b'"')) {
            break;
        }
        end += 1;
    }
    if end == text.len() || text[end] != b'"' {
        return None;
    }
    // Safe, since each of these bytes is below 128.
    let word = unsafe { std::str::from_utf8_unchecked(&text[..end]) };
    Some((word, &text[end + 1..]))
}

/// Reads the number at the front of the text, in decimal digits without leading zeros. Returns the number, and the text
/// after it. A zero at the front is a number by itself. Returns `None` if no digit comes first, or the number has more
/// than 19 digits, which may need more than 64 bits.
#[tactic(auto, using(crate::proofs::CompactLemmas::digit_off, crate::proofs::CompactLemmas::digit_first, crate::proofs::CompactLemmas::digit_next))]
#[inline(always)]
fn whole_number<'a>(text: &'a [u8]) -> Option<(u64, &'a [u8])>
    ensures { IfSome result (λ r. (text.now ≡ decimal r.0 ++ r.1.now) × (r.0 < 2 ^ 64)) }
{
    let first = digit(text, 0)?;
    if first == 0 {
        return Some((0, &text[1..]));
    }
    let mut number = first;
    let mut end = 1usize;
    'number: while let Some(next) = digit(text, end) {
        // Another digit could go beyond 64 bits.
        if number >= 1_000_000_000_000_000_000 {
            return None;
        }
        number = number * 10 + next;
        end += 1;
    }
    Some((number, &text[end..]))
}

/// Returns the value of the digit at the index `at` of the text, or `None` if there is no digit.
#[inline(always)]
fn digit(text: &[u8], at: usize) -> Option<u64>
    ensures { IfSome result (λ digit. (digit < 10) × (at < length text.now)
        × (slice_index text.now at ≡ 48 + digit)) }
{
    if at >= text.len() || text[at] < b'0' || text[at] > b'9' {
        return None;
    }
    Some((text[at] - b'0') as u64)
}
