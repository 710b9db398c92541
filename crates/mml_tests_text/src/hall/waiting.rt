//! Tests that all replies are written and flushed before each read, many of them with one write. An error (`Fail`)
//! means that memory ran out.
//!
//! `FIRST_LOOK` and `GREETING` are scripts over the path of three, nodes 1, 2 and 3 in a row. `FIRST_LOOK_REPLIES` and
//! `GREETING_REPLIES` are their replies. Sums and differences saturate, since plain ones need a proof that they don't
//! overflow.
use super::script_error_of;
use mml_fakes::scripts::{FIRST_LOOK, FIRST_LOOK_REPLIES, GREETING, GREETING_REPLIES, ended_lines};
use mml_fakes::{FakeWriter, Parts};
use std::alloc::Global;
use std::cell::Cell;
use std::io;
use std::io::{Read, Write};
use std::test::Fail;

/// What a reader and a writer share: how many replies were written, and how many of their bytes aren't flushed.
#[derive(Drop)]
struct Replies {
    count: Cell<usize>,
    unflushed: Cell<usize>,
}

/// A reader that returns one line of a script in each read. The reader sets `is_late` if, at some read, the reply to an
/// earlier line wasn't written and flushed.
#[derive(Drop)]
struct Asker<'a> {
    script: &'a str,
    replies: &'a Replies,
    reads: usize,
    is_late: bool,
}

impl<'a> Read for Asker<'a> {
    // Copies the next line to `buf`, as far as there is room, and returns how many bytes were copied: 0 at the end.
    // Sets `is_late` if there isn't one written reply for each earlier read, or some bytes of the replies aren't
    // flushed.
    fn read(&mut self, buf: &mut [u8]) -> io::Result<usize> {
        if self.replies.unflushed.get() > 0 || self.replies.count.get() != self.reads {
            self.is_late = true;
        }
        self.reads = self.reads.saturating_add(1);
        let line = self.script.split_inclusive('\n').next().unwrap_or("");
        self.script = self.script.strip_prefix(line).unwrap_or("");
        line.as_bytes().read(buf)
    }
}

/// A writer that stores the replies, and counts them and their unflushed bytes in `replies`.
#[derive(Drop)]
struct Answered<'a> {
    taken: Vec<u8>,
    replies: &'a Replies,
}

impl<'a> Write for Answered<'a> {
    // Stores all bytes. Counts them as unflushed, and their newlines as replies. Returns an error if memory runs out.
    fn write(&mut self, buf: &[u8]) -> io::Result<usize> {
        self.taken.extend_from_slice(buf)?;
        let count = &self.replies.count;
        count.set(count.get().saturating_add(ended_lines(buf)));
        let unflushed = &self.replies.unflushed;
        unflushed.set(unflushed.get().saturating_add(buf.len()));
        Ok(buf.len())
    }

    // Sets the count of unflushed bytes to 0.
    fn flush(&mut self) -> io::Result<()> {
        self.replies.unflushed.set(0);
        Ok(())
    }
}

/// Answers a script that comes one line in each read. Returns whether it ends well with exactly the replies in
/// `wanted`, all of them written and flushed before the next read and at the end. Also returns how many reads there
/// were.
fn answer_line_by_line(alloc: Global, script: &str, wanted: &str) -> Result<(bool, usize), Fail> {
    let replies = Replies {
        count: Cell::new(0),
        unflushed: Cell::new(0),
    };
    let mut asker = Asker {
        script,
        replies: &replies,
        reads: 0,
        is_late: false,
    };
    let mut writer = Answered {
        taken: Vec::new(alloc),
        replies: &replies,
    };
    let fault = script_error_of(alloc, &mut asker, &mut writer)?;
    let is_told = fault.is_none() && writer.taken.as_slice() == wanted.as_bytes();
    Ok((
        is_told && !asker.is_late && replies.unflushed.get() == 0,
        asker.reads,
    ))
}

/// Returns how many writes and how many flushes were made to a writer from `FakeWriter::patient`, which counts both
/// down from `usize::MAX`.
fn calls(writer: &FakeWriter) -> (usize, usize) {
    (
        usize::MAX.saturating_sub(writer.good),
        usize::MAX.saturating_sub(writer.good_flushes),
    )
}

/// Answers `FIRST_LOOK`, which comes in two reads: the bytes before the offset `cut`, and the others. Returns whether
/// it ends well with exactly its replies, in at most two writes and three flushes.
fn is_answered_in_parts(alloc: Global, cut: usize) -> Result<bool, Fail> {
    let (first, second) = FIRST_LOOK.as_bytes().split_at(cut.min(FIRST_LOOK.len()));
    let mut reader = Parts {
        first,
        second,
        step: usize::MAX,
    };
    let mut writer = FakeWriter::patient(alloc);
    let fault = script_error_of(alloc, &mut reader, &mut writer)?;
    let (writes, flushes) = calls(&writer);
    let is_told = fault.is_none() && writer.taken.as_slice() == FIRST_LOOK_REPLIES.as_bytes();
    Ok(is_told && writes <= 2 && flushes <= 3)
}

/// Returns the first offset in `FIRST_LOOK` for which `is_answered_in_parts` is `false`, or `None` if there is no such
/// offset.
fn first_cut_that_changes(alloc: Global) -> Result<Option<usize>, Fail> {
    for cut in 0..=FIRST_LOOK.len() {
        if !is_answered_in_parts(alloc, cut)? {
            return Ok(Some(cut));
        }
    }
    Ok(None)
}

/// The results of `answer_line_by_line` for `FIRST_LOOK` and for `GREETING`, and the first cut of `FIRST_LOOK` that
/// changes something, or `None` if no cut does.
type Writes = ((bool, usize), (bool, usize), Option<usize>);

/// Answers the scripts `FIRST_LOOK` and `GREETING`, which come one line in each read. Returns for each what
/// `answer_line_by_line` does: whether the replies are right, and were written and flushed before the next read, and
/// how many reads there were. Also returns the result of `first_cut_that_changes`.
fn writes_before_reads(alloc: Global) -> Result<Writes, Fail> {
    let looks = answer_line_by_line(alloc, FIRST_LOOK, FIRST_LOOK_REPLIES)?;
    let greets = answer_line_by_line(alloc, GREETING, GREETING_REPLIES)?;
    Ok((looks, greets, first_cut_that_changes(alloc)?))
}

/// Checks that all replies are written and flushed before the next read. If the script comes in two reads, the replies
/// must be the same, with few writes and flushes.
#[test]
fn replies_go_out_before_the_next_read(rt: HostRuntime) -> Result<(), Fail> {
    // Both scripts pass, with one read for each line and one that finds the end, and no cut changes anything.
    assert_eq!(rt;
        writes_before_reads(rt.alloc())?,
        ((true, 5), (true, 8), None)
    );
    Ok(())
}
