//! Tests of requests and replies as lines. An error (`Fail`) means that memory ran out. `scratch` is the memory with
//! which lines are read.
mod replies;

use mml_codec::{LineFault, Request, read_request, read_request_with, write_request};
use mml_ids::Word;
use mml_plain::{Fields, LineScratch, read_fields};
use std::alloc::{AllocError, Global};
use std::test::Fail;

/// Returns as text what reading a request has returned: the line that `write_request` writes for the request, or the
/// name of the error.
fn text_or_fault(alloc: Global, read: Result<Request, LineFault>) -> Result<String, Fail> {
    match read {
        Ok(request) => line_of_request(alloc, &request),
        Err(fault) => Ok(format!(in alloc; "{fault:?}")?),
    }
}

/// Returns the line that `write_request` writes for a request, into a buffer that had other text before.
fn line_of_request(alloc: Global, request: &Request) -> Result<String, Fail> {
    let mut out = b"before".to_vec(alloc)?;
    write_request(alloc, request, &mut out)?;
    Ok(String::from_utf8(out)?)
}

// Lines, each with what it must be read as, worked out by hand. The lines have the greatest numbers, and each kind of
// value of the registers p and m. Some of the lines are no requests.
const LINES: &[(&[u8], &str)] = &[
    (br#"{"do":"bye"}"#, r#"{"do":"bye"}"#),
    (
        b" { \"node\" : 18446744073709551615, \"do\":\"see\", \"colour\":\"red\" }\r",
        r#"{"do":"see","node":18446744073709551615}"#,
    ),
    (br#"{"do":"look","node":0}"#, r#"{"do":"look","node":0}"#),
    (
        br#"{"do":"move","node":1,"rule":"update","at":18446744073709551615,"with":2}"#,
        r#"{"at":18446744073709551615,"do":"move","node":1,"rule":"update"}"#,
    ),
    (
        br#"{"do":"move","node":3,"rule":"marriage","with":18446744073709551615,"at":1,"x":[]}"#,
        r#"{"at":1,"do":"move","node":3,"rule":"marriage","with":18446744073709551615}"#,
    ),
    (
        br#"{"do":"move","node":1,"rule":"abandonment","at":3}"#,
        r#"{"at":3,"do":"move","node":1,"rule":"abandonment"}"#,
    ),
    (
        br#"{"do":"move","node":1,"rule":"seduction","at":3}"#,
        r#"{"at":3,"do":"move","node":1,"rule":"seduction"}"#,
    ),
    (
        br#"{"do":"fault","node":1,"p":18446744073709551615,"m":true}"#,
        r#"{"do":"fault","m":true,"node":1,"p":18446744073709551615}"#,
    ),
    (
        br#"{"do":"fault","node":1,"p":null,"m":false}"#,
        r#"{"do":"fault","m":false,"node":1,"p":null}"#,
    ),
    (
        br#"{"do":"link","b":18446744073709551615,"a":2}"#,
        r#"{"a":2,"b":18446744073709551615,"do":"link"}"#,
    ),
    (
        br#"{"do":"cut","a":18446744073709551615,"b":2}"#,
        r#"{"a":18446744073709551615,"b":2,"do":"cut"}"#,
    ),
    (br#"{"do":"close"}"#, r#"{"do":"close"}"#),
    (
        br#"{"do":"release","node":1}"#,
        r#"{"do":"release","node":1}"#,
    ),
    (br#"{"do":"report","node":1}"#, r#"{"do":"report"}"#),
    (br#"{"do":"dance"}"#, "Malformed"),
    (b"[1]", "Malformed"),
];

/// Returns whether a line is read as `wanted`, a request's line or an error's name in the form of `text_or_fault`.
/// Tries both `read_request`, which allocates its memory, and `read_request_with`, which uses `scratch`.
fn is_read_as(
    alloc: Global,
    scratch: &mut LineScratch,
    line: &[u8],
    wanted: &str,
) -> Result<bool, Fail> {
    let own = text_or_fault(alloc, read_request(alloc, line))?;
    let kept = text_or_fault(alloc, read_request_with(alloc, line, scratch))?;
    Ok(own.as_str() == wanted && kept.as_str() == wanted)
}

/// Returns the index of the first row of `LINES` whose line is read wrongly, or `None` if all are right.
fn first_other_line(alloc: Global, scratch: &mut LineScratch) -> Result<Option<usize>, Fail> {
    for (row, (line, wanted)) in LINES.iter().enumerate() {
        if !is_read_as(alloc, scratch, line, wanted)? {
            return Ok(Some(row));
        }
    }
    Ok(None)
}

/// A text, how it is written in a line, and how often it is repeated.
type Repeated = (&'static str, &'static str, usize);

/// A name, a key, and the length in bytes of the line of a hello with them.
type Hello = (Repeated, Repeated, usize);

// Names and keys that are plain, that are escaped in a line, or that make a long line. The lengths were worked out by
// hand.
const HELLOS: &[Hello] = &[
    (("ana", "ana", 1), ("a-key", "a-key", 1), 41),
    (("\"\n", r#"\"\n"#, 1), ("\\", r"\\", 1), 39),
    (("n", "n", 2000), ("k", "k", 2000), 4033),
    (("n", "n", 4000), ("k", "k", 0), 4033),
    (("n", "n", 0), ("k", "k", 4000), 4033),
    (("\"", r#"\""#, 983), ("k", "k", 2001), 4000),
];

/// Returns whether the line written for the hello with this name and key is `text`, and `text` is read as a request
/// whose line is `text` again.
fn is_hello_written_as(
    alloc: Global,
    scratch: &mut LineScratch,
    name: String,
    key: String,
    text: &str,
) -> Result<bool, Fail> {
    let (name, key) = (Word::of(name), Word::of(key));
    let line = line_of_request(alloc, &Request::Hello { name, key })?;
    Ok(line.as_str() == text && is_read_as(alloc, scratch, text.as_bytes(), text)?)
}

/// Returns the line that the hello with the name and the key of a row should have.
fn hello_text(alloc: Global, row: &Hello) -> Result<String, AllocError> {
    let ((_, name, names), (_, key, keys), _) = row;
    let name = name.repeat(alloc, *names)?;
    let key = key.repeat(alloc, *keys)?;
    format!(in alloc; "{{\"do\":\"hello\",\"key\":\"{key}\",\"name\":\"{name}\"}}")
}

/// Returns whether the hello of a row is written and read rightly, and its line is as long as the row says.
fn is_hello_told(alloc: Global, scratch: &mut LineScratch, row: &Hello) -> Result<bool, Fail> {
    let text = hello_text(alloc, row)?;
    let ((name, _, names), (key, _, keys), length) = row;
    let name = name.repeat(alloc, *names)?;
    let key = key.repeat(alloc, *keys)?;
    Ok(text.len() == *length && is_hello_written_as(alloc, scratch, name, key, text.as_str())?)
}

/// Returns the index of the first row of `HELLOS` for which `is_hello_told` is `false`, or `None` if there is no such
/// row.
fn first_other_hello(alloc: Global, scratch: &mut LineScratch) -> Result<Option<usize>, Fail> {
    for (number, row) in HELLOS.iter().enumerate() {
        if !is_hello_told(alloc, scratch, row)? {
            return Ok(Some(number));
        }
    }
    Ok(None)
}

/// Returns the number under the key `node` in a line. Returns `None` if the line isn't read as an object, or has no
/// number under that key. Returns an error if memory runs out.
fn named_node(scratch: &mut LineScratch, line: &[u8]) -> Result<Option<u64>, Fail> {
    let mut fields = Fields::empty();
    if read_fields(line, scratch, &mut fields)? {
        return Ok(fields.node);
    }
    Ok(None)
}

/// The first row of `LINES` and the first of `HELLOS` that are wrong, if there are any, and the numbers under `node` in
/// three lines.
type Results = (Option<usize>, Option<usize>, [Option<u64>; 3]);

/// Returns the results of three checks, all of which use `scratch` as memory for reading lines. The first is the first
/// row of `LINES` that is read wrongly, and the second the first row of `HELLOS` that is written or read wrongly. These
/// two are `None` if all rows are right. The third has the numbers under `node` in three lines. The first line is
/// plain, the second has nested arrays and objects, and the third has a number that is too great to be read.
fn results_with(alloc: Global, scratch: &mut LineScratch) -> Result<Results, Fail> {
    let line = first_other_line(alloc, scratch)?;
    let hello = first_other_hello(alloc, scratch)?;
    let plain = named_node(scratch, br#"{"do": "see", "node": 2}"#)?;
    let nested = named_node(scratch, br#"{"do":"see","node":3,"x":[{},[1.5]]}"#)?;
    let great = named_node(scratch, br#"{"do":"see","node":2,"x":[{},[1e999]]}"#)?;
    Ok((line, hello, [plain, nested, great]))
}

/// Checks that the rows of `LINES` and `HELLOS` are read and written rightly. The number under `node` must be found in
/// a plain and in a nested line, but not in one with a number that can't be read.
#[test]
fn requests_are_read_and_written(rt: HostRuntime) -> Result<(), Fail> {
    let mut scratch = LineScratch::new(rt.alloc(), 4096)?;
    let told = results_with(rt.alloc(), &mut scratch)?;
    assert_eq!(rt; told, (None, None, [Some(2), Some(3), None]));
    Ok(())
}
