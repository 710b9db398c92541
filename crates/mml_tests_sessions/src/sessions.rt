//! Tests of one session: how it ends if its reader or its writer fails, and which events have happened then. An error
//! (`Fail`) means that memory ran out, or a house had fewer than two windows.
//!
//! A house is one run of a lab that threads share. A window is one session's view of the published events. A visit is
//! what a test does through two windows of a house. The type `H` is the name of a house, and only contracts use it.
//! The path of three is the lab of nodes 1, 2 and 3 in a row. A close is an event that applies all chosen moves. An
//! assertion inside a loop would need a loop invariant, so loops are in functions whose result a test asserts.
use mml_fakes::scripts::{ANA_GRANTED, ANA_MOVES, ANA_WELCOME};
use mml_fakes::{
    Ending, FakeReader, FakeWriter, Pair, Visit, ending_of, is_first_close, line, lines, visit_path,
};
use mml_journal::MemorySink;
use mml_lab::Who;
use mml_policy::Command;
use mml_session::SessionEnd;
use mml_window::House;
use std::alloc::{AllocError, Global};
use std::sync::Wait;
use std::test::Fail;

/// A visit that serves one session with this reader and this writer.
#[derive(Drop)]
struct Session<'a> {
    reader: FakeReader<'a>,
    writer: FakeWriter,
}

/// The result of a session.
#[derive(Drop)]
struct Served<'a> {
    end: SessionEnd,
    reader: FakeReader<'a>,
    writer: FakeWriter,
    /// Whether the teacher's close, which is asked for after the session, applied a move of node 1.
    is_closed: bool,
}

impl<'a> Visit<MemorySink> for Session<'a> {
    /// The result of the session, and whether the close after the session applied the session's move.
    type Outcome = Served<'a>;

    // Serves the session through the first window, and then asks for the teacher's close through the second one.
    // Returns how the session ended, its reader and writer, and whether the close applied the session's move.
    fn visit<H: House, R: Wait>(self, pair: &mut Pair<'_, MemorySink, H, R>) -> Served<'a> {
        let Session {
            mut reader,
            mut writer,
        } = self;
        let end = pair.one.serve(&mut reader, &mut writer);
        let closed = pair.two.ask(Who::Teacher, &Command::Close);
        Served {
            end,
            reader,
            writer,
            is_closed: is_first_close(&closed),
        }
    }
}

/// Serves a session over the path of three, and then asks for the teacher's close. Returns the session's result, and
/// whether the house ended rightly: with a move and its close if the close applied a move, and otherwise with no event.
/// Returns an error if memory runs out, or there were fewer than two windows.
fn serve<'a, R: Wait>(
    rt: &R,
    alloc: Global,
    reader: FakeReader<'a>,
    writer: FakeWriter,
) -> Result<(Served<'a>, bool), Fail> {
    let sink = MemorySink::new(alloc, None);
    let (told, end) = visit_path(rt, alloc, sink, Session { reader, writer })?;
    match told {
        Some(served) => {
            let wanted = ending_after(served.is_closed);
            Ok((served, ending_of(&end) == wanted))
        }
        None => Err(Fail::from("no window")),
    }
}

/// Returns how the house must end: with a move and its close if the close applied the move (`is_closed`), and otherwise
/// with no event.
fn ending_after(is_closed: bool) -> Ending {
    Ending::Log {
        events: if is_closed { 2 } else { 0 },
        number: if is_closed { 1 } else { 0 },
        halted: false,
    }
}

/// Returns the line of a bye with `spaces` spaces after it, and then the bytes of `end`. Returns an error if memory
/// runs out.
fn bye(alloc: Global, spaces: usize, end: &str) -> Result<Vec<u8>, AllocError> {
    let mut line = line!(bye).as_bytes().to_vec(alloc)?;
    for _ in 0..spaces {
        line.push(b' ')?;
    }
    line.extend_from_slice(end.as_bytes())?;
    Ok(line)
}

/// The reply to a bye.
const LEFT: &str = lines!(left);

/// A row of a table. First come the number of spaces after a bye, and the text after them. Then come how the session
/// must end, what it must write, how many reads of one byte it must make, and how many bytes it must leave unread.
type Row = (usize, &'static str, SessionEnd, &'static str, usize, usize);

/// Byes at the limit of a line's length, one byte over it, without a newline, and with another line after them.
const BYES: &[Row] = &[
    (4084, "\n", SessionEnd::Bye, LEFT, 4097, 0),
    (4085, "\n", SessionEnd::TooLong, "", 4097, 1),
    (0, "", SessionEnd::End, "", 13, 0),
    (4084, "", SessionEnd::End, "", 4097, 0),
    (0, "\n{\"do\":\"bye\"}\n", SessionEnd::Bye, LEFT, 13, 13),
];

/// Serves a session whose reader has the bytes that a row describes: a bye, spaces, and the text after them. Returns
/// whether the session ends, writes and reads as the row says, and the house ends rightly, as `serve` defines it.
fn ends_as_in<R: Wait>(rt: &R, alloc: Global, row: &Row) -> Result<bool, Fail> {
    let (spaces, after, end, written, reads, rest) = row;
    let line = bye(alloc, *spaces, after)?;
    let reader = FakeReader::failing_after(usize::MAX, line.as_slice());
    let (served, is_ended) = serve(rt, alloc, reader, FakeWriter::patient(alloc))?;
    Ok(
        is_ended
            && served.end == *end
            && served.writer.taken.as_slice() == written.as_bytes()
            && (served.reader.reads, served.reader.rest.len()) == (*reads, *rest),
    )
}

/// Returns the index of the first row of `BYES` whose session doesn't end as the row says (`ends_as_in`), or `None` if
/// there is no such row.
fn first_other_row<R: Wait>(rt: &R, alloc: Global) -> Result<Option<usize>, Fail> {
    for (number, row) in BYES.iter().enumerate() {
        if !ends_as_in(rt, alloc, row)? {
            return Ok(Some(number));
        }
    }
    Ok(None)
}

/// Checks that a session over each row of `BYES` ends, writes and reads as the row says.
#[test]
fn lines_have_limits_and_nothing_is_read_after_a_bye(rt: HostRuntime) -> Result<(), Fail> {
    assert_eq!(rt; first_other_row(&rt, rt.alloc())?, None);
    Ok(())
}

/// Returns a reader of `ANA_MOVES` that returns at most `step` bytes in a read.
fn ana_moving(step: usize) -> FakeReader<'static> {
    let mut reader = FakeReader::failing_after(usize::MAX, ANA_MOVES.as_bytes());
    reader.step = step;
    reader
}

/// Serves `ANA_MOVES` with a writer that stores one byte in each write, and fails after `good` bytes. Returns whether
/// exactly the first `good` bytes of the replies are written, and the session ends with `WriteFault`, or with `End` if
/// these are all bytes. Both lines come in one read, and are answered before anything is written. So the move must be
/// granted even if no byte can be written. The house must end rightly, as `serve` defines it.
fn tells_a_write<R: Wait>(rt: &R, alloc: Global, good: usize) -> Result<bool, Fail> {
    let reader = ana_moving(usize::MAX);
    let mut writer = FakeWriter::failing_after(good, alloc);
    writer.step = 1;
    let (served, is_ended) = serve(rt, alloc, reader, writer)?;
    let (out, rest) = ANA_GRANTED.as_bytes().split_at(good.min(ANA_GRANTED.len()));
    let wanted = if rest.is_empty() {
        SessionEnd::End
    } else {
        SessionEnd::WriteFault
    };
    Ok(
        is_ended
            && served.end == wanted
            && served.writer.taken.as_slice() == out
            && served.is_closed,
    )
}

/// Serves a session for each number of bytes of the replies, from 0 to all, with a writer that fails after this number.
/// Returns the first number for which the session is wrong (`tells_a_write` is `false`), or `None` if there is none.
fn first_other_write<R: Wait>(rt: &R, alloc: Global) -> Result<Option<usize>, Fail> {
    for good in 0..=ANA_GRANTED.len() {
        if !tells_a_write(rt, alloc, good)? {
            return Ok(Some(good));
        }
    }
    Ok(None)
}

/// Checks sessions whose writer fails after each possible number of bytes of the replies: what they write, how they
/// end, and that their move isn't lost.
#[test]
fn failed_writes_are_told(rt: HostRuntime) -> Result<(), Fail> {
    assert_eq!(rt; first_other_write(&rt, rt.alloc())?, None);
    Ok(())
}

/// Returns the replies to the whole lines among the first `good` bytes of `ANA_MOVES`. The first line of `ANA_MOVES`,
/// the hello, has 42 bytes with its newline.
fn replies_after(good: usize) -> &'static str {
    if good == ANA_MOVES.len() {
        ANA_GRANTED
    } else if good > 41 {
        ANA_WELCOME
    } else {
        ""
    }
}

/// Serves `ANA_MOVES` with a reader that fails after `good` bytes. Returns whether the session ends with `ReadFault`,
/// and exactly the whole lines among these bytes are answered. The close must apply the move exactly if the move's line
/// is one of them. The house must end rightly, as `serve` defines it.
fn tells_a_read<R: Wait>(rt: &R, alloc: Global, good: usize) -> Result<bool, Fail> {
    let reader = FakeReader::failing_after(good, ANA_MOVES.as_bytes());
    let (served, is_ended) = serve(rt, alloc, reader, FakeWriter::patient(alloc))?;
    Ok(
        is_ended
            && served.end == SessionEnd::ReadFault
            && served.writer.taken.as_slice() == replies_after(good).as_bytes()
            && served.is_closed == (good == ANA_MOVES.len()),
    )
}

/// Serves a session for each number of bytes of `ANA_MOVES`, from 0 to all, with a reader that fails after this number.
/// Returns the first number for which the session is wrong (`tells_a_read` is `false`), or `None` if there is none.
fn first_other_read<R: Wait>(rt: &R, alloc: Global) -> Result<Option<usize>, Fail> {
    for good in 0..=ANA_MOVES.len() {
        if !tells_a_read(rt, alloc, good)? {
            return Ok(Some(good));
        }
    }
    Ok(None)
}

/// Checks how sessions end, and what they write, if the reader fails after each possible number of bytes of the lines.
/// The move must be granted exactly if its line was read whole.
#[test]
fn failed_reads_are_told(rt: HostRuntime) -> Result<(), Fail> {
    assert_eq!(rt; first_other_read(&rt, rt.alloc())?, None);
    Ok(())
}

/// Serves `ANA_MOVES`, which comes in reads of at most `step` bytes. Returns how many writes the replies take. Returns
/// `None` if the replies are wrong, or the house doesn't end rightly, as `serve` defines it.
fn writes_at<R: Wait>(rt: &R, alloc: Global, step: usize) -> Result<Option<usize>, Fail> {
    let reader = ana_moving(step);
    let (served, is_ended) = serve(rt, alloc, reader, FakeWriter::patient(alloc))?;
    let is_well = is_ended && served.writer.taken.as_slice() == ANA_GRANTED.as_bytes();
    // A patient writer starts with `usize::MAX` writes that will succeed.
    Ok(is_well.then_some(usize::MAX - served.writer.good))
}

/// Checks that the replies to two lines that came in one read take one write.
#[test]
fn replies_to_lines_that_came_together_are_one_write(rt: HostRuntime) -> Result<(), Fail> {
    assert_eq!(rt; writes_at(&rt, rt.alloc(), usize::MAX)?, Some(1));
    Ok(())
}

/// Checks that the replies to two lines that came byte by byte take one write each.
#[test]
fn a_line_that_came_alone_is_answered_before_the_next_read(rt: HostRuntime) -> Result<(), Fail> {
    assert_eq!(rt; writes_at(&rt, rt.alloc(), 1)?, Some(2));
    Ok(())
}
