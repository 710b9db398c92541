//! Reading a line of JSON into the fields of a request, which are the values of the keys that requests use.
//!
//! A member of an object is a key with its value. A token is a part of the line, such as a brace or a number.
ghost use Rattle.std.specs.Prelude.{◌≡◌, ◌<◌, None, Some, Ok, OnErr, IfSome, MatchOption, true, false, length};
ghost use Rattle.std.specs.Bool.{MatchBool};
ghost use Rattle.serde_json.specs.Data.{Data, Items, Members, object, no_members};
ghost use Rattle.mml_plain.specs.Reading.{value_at, items_at, members_at, if_over, object_at, object_in};
ghost use Rattle.mml_plain.specs.Shown.{Shows};
ghost use Rattle.mml_plain.specs.Holds.{Holds};

use crate::compact_reading::read_compact;
use crate::fields::Fields;
use crate::line_scratch::LineScratch;
use crate::member_value::{MemberValue, read_number};
use json::{Reader, Token};
use std::alloc::AllocError;

/// How deep arrays and objects in the values of a line's object may nest. With the object itself these are the 127
/// levels that `serde_json` allows.
const DEPTH: usize = 126;

/// Reads a line into `fields`, which must be empty. Returns true if the line is an object that `serde_json` would read;
/// then `fields` has the values of its keys. Returns false if it isn't; then `fields` may hold anything. Returns
/// `AllocError` if `scratch` has no room for the line and memory runs out.
pub fn read_fields<'a>(
    line: &'a [u8],
    scratch: &'a mut LineScratch,
    fields: &mut Fields<'a>,
) -> Result<bool, AllocError>
    requires { Holds fields.old (object no_members) }
    ensures object { result ≡ Ok true → (ms : Members) × (object_in line.now ≡ Some ms)
        × Holds fields.new (object ms) }
    ensures other { result ≡ Ok false → object_in line.now ≡ None }
    ensures memory { OnErr result (scratch.old < length line.now) }
{
    if read_compact(line, fields) {
        return Ok(true);
    }
    read_tokens(line, scratch, fields)
}

/// Empties `fields`, and reads a line into them token by token. Returns true if the line is an object that `serde_json`
/// would read; then `fields` has the values of its keys. Returns false if it isn't; then `fields` may hold anything.
/// Returns `AllocError` if `scratch` has no room for the line and memory runs out. `read_fields` calls this function
/// for lines that `read_compact` doesn't read.
#[inline(never)]
fn read_tokens<'a>(
    line: &'a [u8],
    scratch: &'a mut LineScratch,
    fields: &mut Fields<'a>,
) -> Result<bool, AllocError>
    ensures object { result ≡ Ok true → (ms : Members) × (object_in line.now ≡ Some ms)
        × Holds fields.new (object ms) }
    ensures other { result ≡ Ok false → object_in line.now ≡ None }
    ensures memory { OnErr result (scratch.old < length line.now) }
{
    let Ok(text) = std::str::from_utf8(line) else {
        return Ok(false);
    };
    *fields = Fields::empty();
    let mut reader = Reader::new(text, scratch.for_line())?;
    Ok(read_object(&mut reader, fields))
}

/// Reads the remaining tokens as one object into `fields`, which must be empty. Returns true if the tokens are an
/// object with nothing after it; then `fields` has the values of its keys. Returns false otherwise; then `fields` may
/// hold anything.
#[inline(always)]
fn read_object<'a>(reader: &mut Reader<'a>, fields: &mut Fields<'a>) -> bool
    requires { Holds fields.old (object no_members) }
    ensures { MatchBool result ((ms : Members) × (object_at reader.old ≡ Some ms)
        × Holds fields.new (object ms)) (object_at reader.old ≡ None) }
{
    match reader.next() {
        Some(Token::BeginObject) => read_members(reader, fields),
        _ => false,
    }
}

/// Reads the members of an object, after its opening brace, into `fields`, which must be empty. Returns true if the
/// object is valid, and nothing comes after it; then `fields` has the values of its keys. Returns false otherwise; then
/// `fields` may hold anything.
#[inline(always)]
fn read_members<'a>(reader: &mut Reader<'a>, fields: &mut Fields<'a>) -> bool
    requires { Holds fields.old (object no_members) }
    ensures { MatchBool result
        ((ms : Members) × (if_over (members_at 126 no_members (length reader.old) reader.old)
        ≡ Some ms) × Holds fields.new (object ms))
        (if_over (members_at 126 no_members (length reader.old) reader.old) ≡ None) }
{
    'members: loop {
        let Ok(next) = reader.next_key() else {
            return false;
        };
        let Some(key) = next else {
            return is_over(reader);
        };
        let Some(value) = read_value(reader, DEPTH) else {
            return false;
        };
        fields.put(key, &value);
    }
}

/// Reads the next token after the end of the line's object. Returns true if there is no token. Returns false if there
/// is one; then the line isn't an object.
#[inline(always)]
fn is_over(reader: &mut Reader<'_>) -> bool
    ensures { (ms : Members) → MatchBool result (if_over (Some (ms, reader.old)) ≡ Some ms)
        (if_over (Some (ms, reader.old)) ≡ None) }
{
    reader.next().is_none()
}

/// Reads the next value. Returns `Other` for an array or an object, which is skipped. Returns `None` if `serde_json`
/// wouldn't read the value, or its arrays and objects nest more than `depth` levels deep. This function, `pass_items`
/// and `pass_members` call each other for nested values.
#[cycle(nested)]
#[inline(always)]
fn read_value<'a>(reader: &mut Reader<'a>, depth: usize) -> Option<MemberValue<'a>>
    ensures value { MatchOption result (value_at depth reader.old ≡ None)
        (λ v. (d : Data) × (value_at depth reader.old ≡ Some (d, reader.new)) × Shows v d) }
    ensures shorter { IfSome result (λ _. length reader.new < length reader.old) }
{
    let token = reader.next()?;
    match token {
        Token::Null => Some(MemberValue::Null),
        Token::Bool(truth) => Some(MemberValue::Truth(truth)),
        Token::String(text) => Some(MemberValue::Text(text)),
        Token::Number(text) => {
            let found = read_number(text)?;
            Some(MemberValue::of_number(found))
        }
        Token::BeginArray => {
            if depth == 0 {
                return None;
            }
            if pass_items(reader, depth - 1) {
                Some(MemberValue::Other)
            } else {
                None
            }
        }
        Token::BeginObject => {
            if depth == 0 {
                return None;
            }
            if pass_members(reader, depth - 1) {
                Some(MemberValue::Other)
            } else {
                None
            }
        }
        Token::EndObject | Token::EndArray | Token::Key(_) | Token::Bad => None,
    }
}

/// Skips the rest of an array whose opening bracket was read. Returns true if the array is valid, and arrays and
/// objects in it nest at most `depth` levels deep. Otherwise returns false.
#[cycle(nested)]
#[inline(never)]
fn pass_items(reader: &mut Reader<'_>, depth: usize) -> bool
    ensures passed { result ≡ true → (ds : Items)
        × (items_at depth (length reader.old) reader.old ≡ Some (ds, reader.new)) }
    ensures refused { result ≡ false → items_at depth (length reader.old) reader.old ≡ None }
    ensures shorter { result ≡ true → length reader.new < length reader.old }
{
    'items: while !reader.take_end_array() {
        let Some(_) = read_value(reader, depth) else {
            return false;
        };
    }
    true
}

/// Skips the rest of an object whose opening brace was read. Returns true if the object is valid, and arrays and
/// objects in it nest at most `depth` levels deep. Otherwise returns false.
#[cycle(nested)]
#[inline(never)]
fn pass_members(reader: &mut Reader<'_>, depth: usize) -> bool
    ensures passed { result ≡ true → (ms : Members)
        × (members_at depth no_members (length reader.old) reader.old ≡ Some (ms, reader.new)) }
    ensures refused { result ≡ false
        → members_at depth no_members (length reader.old) reader.old ≡ None }
    ensures shorter { result ≡ true → length reader.new < length reader.old }
{
    'members: loop {
        let Ok(named) = reader.next_key() else {
            return false;
        };
        let Some(_) = named else {
            return true;
        };
        let Some(_) = read_value(reader, depth) else {
            return false;
        };
    }
}
