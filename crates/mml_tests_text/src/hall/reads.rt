//! Tests that each read of a script is made once, and none after the script's end. Other tests check how a script ends,
//! and which lines are answered, if a read fails. An error (`Fail`) means that memory ran out.
//!
//! `FIRST_LOOK` and `GREETING` are scripts over the path of three, nodes 1, 2 and 3 in a row. `FIRST_LOOK_REPLIES` and
//! `GREETING_REPLIES` are their replies.
use super::script_error_of;
use mml_fakes::scripts::{
    FIRST_LOOK, FIRST_LOOK_REPLIES, GREETING, GREETING_REPLIES, ended_lines, first_lines,
};
use mml_fakes::{FakeReader, FakeWriter, lines};
use mml_hall::ScriptFault;
use std::alloc::{AllocError, Global};
use std::test::Fail;

/// How a script ends: how many reads succeed, the error (`None` if it ends well), and how many bytes are left unread.
type End = (usize, Option<ScriptFault>, usize);

/// The error of a script for which a read failed.
const FAILED: Option<ScriptFault> = Some(ScriptFault::Read);

/// Answers a script that comes in reads of at most `step` bytes. `end` says how many reads succeed, with which error
/// the script must end, and how many bytes must be left unread. Returns whether the script ends as `end` says, with
/// exactly the replies in `replies`, and takes the right number of reads. This is the number of reads that succeed, and
/// one more if a read fails.
fn is_script_answered(
    alloc: Global,
    script: &str,
    replies: &str,
    step: usize,
    end: End,
) -> Result<bool, Fail> {
    let (good, wanted, unread) = end;
    let mut reader = FakeReader::failing_after(good, script.as_bytes());
    reader.step = step;
    let mut writer = FakeWriter::patient(alloc);
    let fault = script_error_of(alloc, &mut reader, &mut writer)?;
    let reads = good.saturating_add(usize::from(wanted == FAILED));
    let is_rest = reader.rest.len() == unread && script.as_bytes().ends_with(reader.rest);
    let is_answered = writer.taken.as_slice() == replies.as_bytes();
    Ok(fault == wanted && reader.reads == reads && is_rest && is_answered)
}

/// Returns whether a script has exactly these replies, both if it comes byte by byte and if it comes in one read. In
/// each case there must be exactly one more read, which finds the end.
fn is_read_once(alloc: Global, script: &str, replies: &str) -> Result<bool, Fail> {
    let by_bytes = (script.len().saturating_add(1), None, 0);
    let is_read_by_bytes = is_script_answered(alloc, script, replies, 1, by_bytes)?;
    let is_read_at_once = is_script_answered(alloc, script, replies, 4096, (2, None, 0))?;
    Ok(is_read_by_bytes && is_read_at_once)
}

/// Runs the script `GREETING` once for each number from 0 to its length. In each run, this number of reads return one
/// byte each, and the next read fails. The run must end with the error `FAILED`, and answer exactly the lines that came
/// whole. Returns the first number for which `is_script_answered` is `false`, or `None` if there is no such number.
fn first_other_read(alloc: Global) -> Result<Option<usize>, Fail> {
    let script = GREETING.as_bytes();
    for good in 0..=script.len() {
        let (given, rest) = script.split_at(good.min(script.len()));
        let replies = first_lines(GREETING_REPLIES, ended_lines(given) as u64);
        if !is_script_answered(alloc, GREETING, replies, 1, (good, FAILED, rest.len()))? {
            return Ok(Some(good));
        }
    }
    Ok(None)
}

// A script of 600 byes, of 15 bytes each, comes in reads of 4,096 bytes, the whole buffer. Each row has how many byes
// are answered, and how the script ends.
const BUFFERS: [(usize, End); 5] = [
    (0, (0, FAILED, 9000)),
    (273, (1, FAILED, 4904)),
    (546, (2, FAILED, 808)),
    (600, (3, FAILED, 0)),
    (600, (4, None, 0)),
];

/// Runs the script of 600 byes once for each row of `BUFFERS`. Returns the index of the first row that is wrong, or
/// `None` if all are right.
fn first_other_buffer(alloc: Global) -> Result<Option<usize>, Fail> {
    let script = lines!("2 ", bye).repeat(alloc, 600)?;
    for (row, (answered, end)) in BUFFERS.iter().enumerate() {
        let replies = lines!("2 ", left).repeat(alloc, *answered)?;
        if !is_script_answered(alloc, script.as_str(), replies.as_str(), usize::MAX, *end)? {
            return Ok(Some(row));
        }
    }
    Ok(None)
}

/// Returns a script line of 4,036 bytes: a hello with a name and a key that nobody has.
fn long_greeting(alloc: Global) -> Result<String, AllocError> {
    let (name, key) = ("n".repeat(alloc, 2000)?, "k".repeat(alloc, 2000)?);
    format!(in alloc; "1 {{\"do\":\"hello\",\"key\":\"{key}\",\"name\":\"{name}\"}}\n")
}

/// The reply to a hello whose name and key don't match.
const UNKNOWN: &str =
    "1 {\"clause\":2,\"deny\":\"unknown\",\"text\":\"name and key do not match\"}\n";

/// Returns whether the hello of 4,036 bytes is answered by `UNKNOWN`, with one read for it and one that finds the end.
fn is_long_greeting_answered(alloc: Global) -> Result<bool, Fail> {
    let script = long_greeting(alloc)?;
    let is_told = is_script_answered(alloc, script.as_str(), UNKNOWN, usize::MAX, (2, None, 0))?;
    Ok(is_told && script.len() == 4036)
}

/// Returns whether a script with an empty second line, which comes byte by byte, ends with `BadLine(2)`. The first line
/// must be answered before, and nothing may be read after the empty line.
fn is_bad_line_told(alloc: Global) -> Result<bool, Fail> {
    let script = lines!("2 ", bye, "\n2 ", bye);
    let end = (16, Some(ScriptFault::BadLine(2)), 15);
    is_script_answered(alloc, script, lines!("2 ", left), 1, end)
}

/// Tries four scripts: `FIRST_LOOK`, `GREETING`, one with a long hello, and one with a bad line. Returns for each
/// whether each read is made once, and the replies are right.
fn are_read_once(alloc: Global) -> Result<[bool; 4], Fail> {
    let look = is_read_once(alloc, FIRST_LOOK, FIRST_LOOK_REPLIES)?;
    let greeting = is_read_once(alloc, GREETING, GREETING_REPLIES)?;
    let long = is_long_greeting_answered(alloc)?;
    Ok([look, greeting, long, is_bad_line_told(alloc)?])
}

/// Returns the results of all checks of reads. The first says for each of four scripts whether each read is made once.
/// The second has the first failed read that is reported wrongly, and the first row of `BUFFERS` that is wrong; they
/// are `None` if all is right.
fn reads_made(alloc: Global) -> Result<([bool; 4], [Option<usize>; 2]), Fail> {
    let are_read_once = are_read_once(alloc)?;
    let firsts = [first_other_read(alloc)?, first_other_buffer(alloc)?];
    Ok((are_read_once, firsts))
}

/// Checks that each read of a script is made once. A read that failed mustn't be tried again, and no read may follow
/// the script's end or a bad line. A failure means that a script of this file had more or fewer reads, other replies,
/// another error, or other bytes left unread.
#[test]
fn each_read_is_made_once(rt: HostRuntime) -> Result<(), Fail> {
    assert_eq!(rt; reads_made(rt.alloc())?, ([true; 4], [None; 2]));
    Ok(())
}
