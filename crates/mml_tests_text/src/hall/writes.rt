//! Tests of writes and flushes that fail: which replies were written before, and what the error says. An error (`Fail`)
//! means that memory ran out.
//!
//! `FIRST_LOOK` and `GREETING` are scripts over the path of three, nodes 1, 2 and 3 in a row. `FIRST_LOOK_REPLIES` and
//! `GREETING_REPLIES` are their replies.
use super::script_error_of;
use mml_fakes::scripts::{FIRST_LOOK, FIRST_LOOK_REPLIES, GREETING, GREETING_REPLIES};
use mml_fakes::{FakeReader, FakeWriter, Refusal};
use mml_hall::ScriptFault;
use std::alloc::Global;
use std::io::ErrorKind;
use std::test::Fail;

/// Returns how many of these bytes follow the last newline. Returns the number of all bytes if there is no newline.
fn after_last_line(bytes: &[u8]) -> usize {
    let last = bytes.iter().rev().position(|byte| *byte == b'\n');
    last.unwrap_or(bytes.len())
}

/// Answers `FIRST_LOOK` with a writer that takes `step` bytes in each of `good` writes and then refuses, as `refusal`
/// says. Returns whether exactly the bytes of these writes are written, and the error says how many of them belong to
/// the line that isn't written whole. If all replies are written, there must be no error.
fn tells_a_write(alloc: Global, step: usize, good: usize, refusal: Refusal) -> Result<bool, Fail> {
    let replies = FIRST_LOOK_REPLIES.as_bytes();
    let (out, rest) = replies.split_at(usize::saturating_mul(step, good).min(replies.len()));
    let wanted = if rest.is_empty() {
        None
    } else {
        let written = after_last_line(out);
        Some(ScriptFault::Write { written })
    };
    let mut writer = FakeWriter::failing_after(good, alloc);
    writer.step = step;
    writer.refusal = refusal;
    let fault = script_error_of(alloc, &mut FIRST_LOOK.as_bytes(), &mut writer)?;
    Ok(fault == wanted && writer.taken.as_slice() == out)
}

/// A refusal by an error, instead of writing nothing.
const FAILS: Refusal = Refusal::Fails(ErrorKind::Other);

// How many bytes each write takes, and how writes are refused later.
const WRITERS: [(usize, Refusal); 3] = [(1, FAILS), (1, Refusal::TakesNothing), (7, FAILS)];

/// Tries the writers of `WRITERS`, each with every number of good writes from 0 to the number of bytes of the replies.
/// Returns the first number for which `tells_a_write` is `false`, and how many bytes each write takes. Returns `None`
/// if there is no such number.
fn first_other_write(alloc: Global) -> Result<Option<(usize, usize)>, Fail> {
    for good in 0..=FIRST_LOOK_REPLIES.len() {
        for (step, refusal) in WRITERS {
            if !tells_a_write(alloc, step, good, refusal)? {
                return Ok(Some((good, step)));
            }
        }
    }
    Ok(None)
}

/// Answers `GREETING` with a writer whose first `good` flushes succeed, and whose next flush fails. Returns whether the
/// script ends with the fault `Write` of 0 bytes, and only whole lines of replies are written. There must be as many
/// reads as good flushes, since a flush comes before each read.
fn tells_a_flush(alloc: Global, good: usize) -> Result<bool, Fail> {
    let mut reader = FakeReader::failing_after(usize::MAX, GREETING.as_bytes());
    reader.step = 40;
    let mut writer = FakeWriter::patient(alloc);
    writer.good_flushes = good;
    let fault = script_error_of(alloc, &mut reader, &mut writer)?;
    let out = writer.taken.as_slice();
    let is_front = GREETING_REPLIES.as_bytes().starts_with(out) && after_last_line(out) == 0;
    let is_unread = reader.reads == good;
    Ok(fault == Some(ScriptFault::Write { written: 0 }) && is_front && is_unread)
}

/// Tries writers whose first 0 to 6 flushes succeed, and whose next flush fails. The script makes seven flushes.
/// Returns the first number for which `tells_a_flush` is `false`, or `None` if there is no such number.
fn first_other_flush(alloc: Global) -> Result<Option<usize>, Fail> {
    for good in 0..7 {
        if !tells_a_flush(alloc, good)? {
            return Ok(Some(good));
        }
    }
    Ok(None)
}

/// The results of `first_other_write` and of `first_other_flush`; each is `None` if all is right.
type Others = (Option<(usize, usize)>, Option<usize>);

/// Returns the results of `first_other_write` and of `first_other_flush`; each is `None` if all is right.
fn first_others(alloc: Global) -> Result<Others, Fail> {
    Ok((first_other_write(alloc)?, first_other_flush(alloc)?))
}

/// Checks that a failed write or flush ends a script, and that the error says how many bytes were written.
#[test]
fn failed_writes_and_flushes_are_told(rt: HostRuntime) -> Result<(), Fail> {
    assert_eq!(rt; first_others(rt.alloc())?, (None, None));
    Ok(())
}
