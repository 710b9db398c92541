//! Tests of what `check`, `audit` and `script` write, over writers that fail after given numbers of writes or
//! flushes. An error (`Fail`) means that memory ran out.
//!
//! The path of three is the lab of nodes 1, 2 and 3 in a row. An assertion inside a loop would need a loop invariant,
//! so loops are in functions whose result a test asserts.
use mml_fakes::labs::{PATH_OF_THREE, boxed_lab};
use mml_fakes::scripts::{FIRST_LOOK, FIRST_LOOK_REPLIES, TEN_LINES};
use mml_fakes::{FakeWriter, lines};
use mml_journal::NullSink;
use mml_lab::Lab;
use mml_lab_file::read_lab;
use mml_program::{BUILT_IN, Fault, answer_script, write_audit, write_size};
use mml_serving::write_listening;
use std::alloc::Global;
use std::test::Fail;

/// Returns whether a call ended with the error `wanted`, or well if that is `None`, and its writer has exactly the
/// bytes `out`. `ended` is the call's result.
fn has_written(
    ended: Result<(), Fault>,
    writer: &FakeWriter,
    wanted: Option<Fault>,
    out: &[u8],
) -> bool {
    ended.err() == wanted && writer.taken.as_slice() == out
}

/// The line of `check` for the path of three.
const SIZE: &[u8] = b"ok: 3 nodes, 2 links, 3 students\n";

/// The line of `audit` for `TEN_LINES` over the path of three.
const AUDITED: &[u8] = b"ok: 10 events, configuration 4, stable\n";

/// The first line of a server on port 7000.
const LISTENING: &[u8] = b"listening on port 7000\n";

/// Returns whether a server's first line is written as `LISTENING`, with one write.
fn is_listening_told(alloc: Global) -> bool {
    let mut first = FakeWriter::failing_after(1, alloc);
    write_listening(alloc, 7000, &mut first) == Ok(()) && first.taken.as_slice() == LISTENING
}

/// Returns whether the line of `check` for this lab is `SIZE`, and the line of `audit` is `AUDITED`, each with one
/// write. If the write of the line of `check` fails, this must be reported, and nothing be written.
fn are_lines_told(alloc: Global, lab: &Lab) -> bool {
    let mut size = FakeWriter::failing_after(1, alloc);
    let is_size = write_size(alloc, lab, &mut size);
    let mut audit = FakeWriter::failing_after(1, alloc);
    let is_audit = write_audit(alloc, lab, TEN_LINES.as_bytes(), &mut audit);
    let mut failing = FakeWriter::failing_after(0, alloc);
    let is_failed = write_size(alloc, lab, &mut failing);
    has_written(is_size, &size, None, SIZE)
        && has_written(is_audit, &audit, None, AUDITED)
        && has_written(is_failed, &failing, Some(Fault::Write), b"")
}

/// Returns whether a server's first line, and the lines of `check` and `audit` for the built-in lab, are right. Each
/// must take one write, and a failed write must be reported. Returns an error if the built-in lab can't be read.
fn are_lines_right(alloc: Global) -> Result<bool, Fail> {
    let lab = boxed_lab(alloc, BUILT_IN)?;
    Ok(is_listening_told(alloc) && are_lines_told(alloc, &lab))
}

/// Checks that a server's first line, and the lines of `check` and `audit`, are right and take one write each. A failed
/// write must be reported. The built-in lab must be the path of three.
#[test]
fn lines_go_out_in_one_write(rt: HostRuntime) -> Result<(), Fail> {
    let are_told = are_lines_right(rt.alloc())?;
    let is_path = PATH_OF_THREE.strip_prefix('\n') == Some(BUILT_IN);
    assert_eq!(rt; (are_told, is_path), (true, true));
    Ok(())
}

/// A script of one line: connection 1 says bye.
const BYE: &str = lines!("1 ", bye);

/// The reply to `BYE`.
const LEFT: &str = lines!("1 ", left);

/// A script whose second line names connection 5, which the built-in lab doesn't have.
const BAD_SECOND_LINE: &str = lines!("1 ", bye, "5 ", bye);

/// A script, and how often it is repeated; how many writes and how many flushes of its writer succeed; and the error
/// with which it ends. Then comes what must be written: a text, and how often it is repeated.
type Row = (
    &'static str,
    usize,
    usize,
    usize,
    Option<Fault>,
    &'static str,
    usize,
);

/// Scripts and how they must end. Before each read all replies are written and flushed. A write or a flush that fails
/// is reported instead of a good end, and instead of an error that would come after it. One read returns at most 4096
/// bytes, which are 273 of these byes; the replies to them take one write.
const ROWS: &[Row] = &[
    ("", 1, 1, 2, None, "", 1),
    (FIRST_LOOK, 1, 1, 2, None, FIRST_LOOK_REPLIES, 1),
    (BAD_SECOND_LINE, 1, 1, 2, Some(Fault::BadLine(2)), LEFT, 1),
    (FIRST_LOOK, 1, 0, 2, Some(Fault::Write), "", 1),
    (FIRST_LOOK, 1, 1, 0, Some(Fault::Write), "", 1),
    (
        FIRST_LOOK,
        1,
        1,
        1,
        Some(Fault::Write),
        FIRST_LOOK_REPLIES,
        1,
    ),
    (BAD_SECOND_LINE, 1, 1, 1, Some(Fault::Write), LEFT, 1),
    (BYE, 1000, 1, 100, Some(Fault::Write), LEFT, 273),
    (BYE, 1000, 100, 100, None, LEFT, 1000),
];

/// Answers a script over the built-in lab, and writes the replies to the writer. Returns the fault with which the
/// script ends, or `None` if it ends well. Returns an error (`Fail`) if the lab can't be read.
fn fault_of(alloc: Global, script: &str, writer: &mut FakeWriter) -> Result<Option<Fault>, Fail> {
    let lab = read_lab(alloc, BUILT_IN.as_bytes())?;
    let mut reader = script.as_bytes();
    Ok(answer_script(alloc, lab, &mut reader, writer, NullSink::new()).err())
}

/// Returns whether the script of a row ends with the row's error, and its writer gets the row's replies.
fn is_answered(alloc: Global, row: &Row) -> Result<bool, Fail> {
    let (script, times, writes, flushes, wanted, replies, count) = row;
    let mut writer = FakeWriter::failing_after(*writes, alloc);
    writer.good_flushes = *flushes;
    let script = script.repeat(alloc, *times)?;
    let fault = fault_of(alloc, script.as_str(), &mut writer)?;
    let replies = replies.repeat(alloc, *count)?;
    Ok(fault == *wanted && writer.taken.as_slice() == replies.as_bytes())
}

/// Returns the index of the first row of `ROWS` for which `is_answered` is `false`, or `None` if there is no such row.
fn first_other(alloc: Global) -> Result<Option<usize>, Fail> {
    for (number, row) in ROWS.iter().enumerate() {
        if !is_answered(alloc, row)? {
            return Ok(Some(number));
        }
    }
    Ok(None)
}

/// Checks that each script of `ROWS` ends, and is answered, as its row says.
#[test]
fn scripts_are_answered_up_to_a_failed_write(rt: HostRuntime) -> Result<(), Fail> {
    assert_eq!(rt; first_other(rt.alloc())?, None);
    Ok(())
}
