//! Tests of journals whose sinks fail at each put, or at each byte. An error means that memory ran out.
//!
//! A put is a write to a sink. A `Drip` is a sink that stores one byte in each put, and fails after some puts.
//! `TEN_LINES` is the journal of a stored run over the path of three: nodes 1, 2 and 3 in a row. Sums saturate, since a
//! plain sum needs a proof that it doesn't overflow.
use mml_fakes::Drip;
use mml_fakes::labs::{PATH_OF_THREE, boxed_lab};
use mml_fakes::scripts::{TEN_LINES, first_lines};
use mml_ids::Memory;
use mml_journal::{Journal, MemorySink, Sink, event_text, read_event};
use mml_lab::Lab;
use std::alloc::Global;
use std::test::Fail;

/// Reads the event of a line, and appends the event's text to a journal. Returns whether that succeeded: `false` if the
/// line isn't an event's, or a put into the journal's sink has failed, now or before.
fn put_line<S: Sink>(
    alloc: Global,
    lab: &Lab,
    journal: &mut Journal<S>,
    line: &[u8],
) -> Result<bool, Memory> {
    let Ok((place, before, event)) = read_event(line, lab.ids(), lab.roster()) else {
        return Ok(false);
    };
    let text = event_text(alloc, place, before, &event, lab.ids(), lab.roster())?;
    Ok(journal.append(&text).is_ok())
}

/// Appends the lines of `TEN_LINES` to a journal one by one, and returns how many were appended whole.
fn put_lines<S: Sink>(alloc: Global, lab: &Lab, journal: &mut Journal<S>) -> Result<usize, Memory> {
    let mut count = 0usize;
    for line in TEN_LINES.lines() {
        let is_taken = put_line(alloc, lab, journal, line.as_bytes())?;
        count = usize::saturating_add(count, usize::from(is_taken));
    }
    Ok(count)
}

/// Appends the ten lines to a journal whose sink fails from its put number `fail_at` on, counted from 1, or never if
/// that is `None`. Returns whether exactly the first `lines` of them are appended and in the sink, and the journal is
/// halted exactly if some are missing.
fn takes_lines(alloc: Global, lab: &Lab, fail_at: Option<u64>, lines: usize) -> Result<bool, Fail> {
    let text = first_lines(TEN_LINES, lines as u64);
    let mut journal = Journal::new(MemorySink::new(alloc, fail_at));
    let count = put_lines(alloc, lab, &mut journal)?;
    let is_halted = journal.halted() == (lines < 10);
    Ok(count == lines && is_halted && journal.into_sink().bytes() == text.as_bytes())
}

/// Tries sinks that take from 0 to 10 lines, and fail at the line after these. Returns the first number of lines for
/// which `takes_lines` is `false`, or `None` if there is no such number.
fn first_other_count(alloc: Global, lab: &Lab) -> Result<Option<usize>, Fail> {
    for lines in 0..=10usize {
        if !takes_lines(alloc, lab, Some(lines as u64 + 1), lines)? {
            return Ok(Some(lines));
        }
    }
    Ok(None)
}

/// Returns three results. The first is that of `first_other_count`. The second is about a sink whose `fail_at` is 0, so
/// that it fails from its first put on: whether it gets no line, and its journal is halted. The third is whether a sink
/// that never fails gets all ten lines, and its journal isn't halted.
fn faults_of_sinks(alloc: Global, lab: &Lab) -> Result<(Option<usize>, bool, bool), Fail> {
    let other = first_other_count(alloc, lab)?;
    let none = takes_lines(alloc, lab, Some(0), 0)?;
    let all = takes_lines(alloc, lab, None, 10)?;
    Ok((other, none, all))
}

/// Appends the ten lines, whose text is `text`, to a journal whose sink stores `left` bytes and then fails. Returns
/// whether the sink then has exactly the first `left` bytes of the text, or all bytes if the text is shorter. The
/// journal must be halted exactly if some bytes are missing.
fn takes_bytes(alloc: Global, lab: &Lab, text: &[u8], left: usize) -> Result<bool, Memory> {
    let mut journal = Journal::new(Drip::failing_after(left, alloc));
    put_lines(alloc, lab, &mut journal)?;
    let is_halted = journal.halted() == (left < text.len());
    let taken = &journal.sink().bytes;
    Ok(is_halted && taken.len() == left.min(text.len()) && text.starts_with(taken.as_slice()))
}

/// Returns whether `takes_bytes` is `true` for each number of bytes, from 0 to all bytes of the ten lines.
fn takes_each_number_of_bytes(alloc: Global, lab: &Lab) -> Result<bool, Fail> {
    let text = TEN_LINES.as_bytes();
    for left in 0..=text.len() {
        if !takes_bytes(alloc, lab, text, left)? {
            return Ok(false);
        }
    }
    Ok(true)
}

/// Writes journals of the path of three. Returns the three results of `faults_of_sinks`, about sinks that fail at a
/// line. Also returns the result of `takes_each_number_of_bytes`, about sinks that fail after a number of bytes.
fn lines_and_bytes_taken(alloc: Global) -> Result<((Option<usize>, bool, bool), bool), Fail> {
    let lab = boxed_lab(alloc, PATH_OF_THREE)?;
    let lines = faults_of_sinks(alloc, &lab)?;
    Ok((lines, takes_each_number_of_bytes(alloc, &lab)?))
}

/// Checks that after a failed put a sink has exactly what was put before, and the journal is halted. If no put failed,
/// the journal mustn't be halted.
#[test]
fn sinks_fail_at_each_put_and_at_each_byte(rt: HostRuntime) -> Result<(), Fail> {
    assert_eq!(rt;
        lines_and_bytes_taken(rt.alloc())?,
        ((None, true, true), true)
    );
    Ok(())
}
