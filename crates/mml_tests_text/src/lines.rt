//! Tests of reading lines. An error means that memory ran out.
//!
//! An answer is what `Lines::next` returns. `TEXT` is an input of three lines and a rest, and `TOLD` has the answers
//! for it, as a text.
mod whole;

use mml_fakes::{FakeReader, Parts};
use mml_lines::{Lines, MAX_LIMIT, MAX_READS, Step};
use std::alloc::{AllocError, Global};
use std::io::Read;
use std::test::Fail;

/// Two lines with text, an empty one between them, and a rest without a newline.
const TEXT: &[u8] = b"ab\n\ncd\ne";

/// The answers of `Lines::next` for `TEXT`, in the form of `steps_text`. The rest isn't a line.
const TOLD: &str = "Line ab\nLine \nLine cd\nEnd \n";

/// Calls `next` until its first answer that isn't `Line`, at most ten times. Returns as a text each answer, with the
/// bytes that `Lines::bytes` returns after it.
fn steps_text<R: Read>(
    lines: &mut Lines,
    alloc: Global,
    reader: &mut R,
) -> Result<String, AllocError> {
    let mut text = String::new(alloc);
    for _ in 0..10 {
        let step = lines.next(reader);
        write!(text, "{step:?} {}\n", lines.bytes().escape_ascii())?;
        if step != Step::Line {
            break;
        }
    }
    Ok(text)
}

/// Reads the lines of a reader to the end, with this limit on a line's length. Returns the answers of `next` in the
/// form of `steps_text`. Appends `and another end` if a call after the last answer gives a different one, or reads on.
fn steps_to_the_end<R: Read>(alloc: Global, limit: usize, reader: &mut R) -> Result<String, Fail> {
    let mut lines = Lines::new(alloc, limit.min(MAX_LIMIT))?;
    let mut text = steps_text(&mut lines, alloc, reader)?;
    if !is_repeated(&mut lines, alloc, text.as_str())? {
        text.push_str("and another end")?;
    }
    Ok(text)
}

/// Asks for two more answers, now with another reader. Returns whether both are equal to the last answer in `text`,
/// which has the answers so far, and no byte of the other reader is read.
fn is_repeated(lines: &mut Lines, alloc: Global, text: &str) -> Result<bool, AllocError> {
    let mut late = b"late\n".as_slice();
    let again = steps_text(lines, alloc, &mut late)?;
    let once_more = steps_text(lines, alloc, &mut late)?;
    Ok(text.ends_with(again.as_str()) && again == once_more && late.len() == 5)
}

/// A limit, a number of digits, what follows them, whether they must be returned as a line, and the last answer as
/// text.
type Length = (usize, usize, &'static str, bool, &'static str);

/// Lines at their limit and over it, with a newline and without.
const LENGTHS: &[Length] = &[
    (4096, 4096, "\n", true, "End \n"),
    (4096, 4097, "\n", false, "TooLong \n"),
    (4096, 4096, "", false, "End \n"),
    (4096, 4097, "", false, "TooLong \n"),
    (4096, 9012, "", false, "TooLong \n"),
    (MAX_LIMIT, 65_536, "\n", true, "End \n"),
    (MAX_LIMIT, 65_537, "\n", false, "TooLong \n"),
];

/// Returns a text of `len` digits, which repeats 7, 1, 1. The period of three doesn't divide 4,096, so the text changes
/// if a block of that size is in the wrong place.
fn digits(alloc: Global, len: usize) -> Result<String, AllocError> {
    let mut text = String::new(alloc);
    for index in 0..len {
        text.push_str(if index % 3 == 0 { "7" } else { "1" })?;
    }
    Ok(text)
}

/// Returns whether a line, followed by `end` and read with this limit on its length, gives the answers in `wanted`.
fn are_steps(
    alloc: Global,
    limit: usize,
    line: &str,
    end: &str,
    wanted: &str,
) -> Result<bool, Fail> {
    let text = format!(in alloc; "{line}{end}")?;
    Ok(steps_to_the_end(alloc, limit, &mut text.as_bytes())?.as_str() == wanted)
}

/// Returns the right answers as a text: the one for `line` if `is_line` is set, and then `last`, the last answer.
fn wanted(alloc: Global, line: &str, is_line: bool, last: &str) -> Result<String, AllocError> {
    if is_line {
        format!(in alloc; "Line {line}\n{last}")
    } else {
        String::from_str(alloc, last)
    }
}

/// Returns whether `Lines` reads the input of a row as the row says. The input is a line of `len` digits, followed by
/// `end`, and is read with this limit on a line's length. `Lines` must return the line if `is_line` is set, and then
/// the answer `last`.
fn is_row_right(alloc: Global, row: &Length) -> Result<bool, Fail> {
    let (limit, len, end, is_line, last) = row;
    let line = digits(alloc, *len)?;
    let wanted = wanted(alloc, line.as_str(), *is_line, last)?;
    are_steps(alloc, *limit, line.as_str(), end, wanted.as_str())
}

/// Checks each row of `LENGTHS` with `is_row_right`. Returns the index of the first row that is wrong, or `None` if
/// all are right.
fn first_other_length(alloc: Global) -> Result<Option<usize>, Fail> {
    for (number, row) in LENGTHS.iter().enumerate() {
        if !is_row_right(alloc, row)? {
            return Ok(Some(number));
        }
    }
    Ok(None)
}

/// Checks that a line at its limit is returned, a longer one is reported as too long, and one without a newline isn't
/// returned.
#[test]
fn a_line_is_as_long_as_the_limit(rt: HostRuntime) -> Result<(), Fail> {
    assert_eq!(rt; first_other_length(rt.alloc())?, None);
    Ok(())
}

/// Returns whether `TEXT`, cut in two at `cut`, gives the answers in `TOLD` if a line may have two bytes. The first
/// part comes in one read, and the second in reads of at most `step` bytes.
fn is_told_in_parts(alloc: Global, cut: usize, step: usize) -> Result<bool, Fail> {
    let (first, second) = TEXT.split_at(cut.min(TEXT.len()));
    let mut reader = Parts {
        first,
        second,
        step,
    };
    Ok(steps_to_the_end(alloc, 2, &mut reader)?.as_str() == TOLD)
}

/// Returns the first offset at which cutting `TEXT` in two changes the answers, or `None` if there is no such offset.
/// The second part comes in reads of at most `step` bytes.
fn first_cut_that_changes(alloc: Global, step: usize) -> Result<Option<usize>, Fail> {
    for cut in 0..=TEXT.len() {
        if !is_told_in_parts(alloc, cut, step)? {
            return Ok(Some(cut));
        }
    }
    Ok(None)
}

/// The most bytes that a read returns, how many reads succeed, the right answers, and how many reads must be made.
type Reads = (usize, usize, &'static str, usize);

/// Readers of `TEXT` that fail after some reads. In the row of `TOLD`, the end comes before that.
const READS: &[Reads] = &[
    (1, 0, "ReadFault \n", 1),
    (1, 1, "ReadFault \n", 2),
    (1, 2, "ReadFault \n", 3),
    (1, 3, "Line ab\nReadFault \n", 4),
    (1, 4, "Line ab\nLine \nReadFault \n", 5),
    (1, 5, "Line ab\nLine \nReadFault \n", 6),
    (1, 6, "Line ab\nLine \nReadFault \n", 7),
    (1, 7, "Line ab\nLine \nLine cd\nReadFault \n", 8),
    (1, 8, "Line ab\nLine \nLine cd\nReadFault \n", 9),
    (1, 9, TOLD, 9),
    // The lines that came in a good read are returned before the next read fails.
    (100, 1, "Line ab\nLine \nLine cd\nReadFault \n", 2),
];

/// Returns whether `TEXT`, from the reader of a row and with a limit of two bytes on a line's length, gives the row's
/// answers with the row's number of reads.
fn are_reads_told(alloc: Global, row: &Reads) -> Result<bool, Fail> {
    let (step, good, wanted, reads) = row;
    let mut reader = FakeReader::failing_after(*good, TEXT);
    reader.step = *step;
    let told = steps_to_the_end(alloc, 2, &mut reader)?;
    Ok(told.as_str() == *wanted && reader.reads == *reads)
}

/// Returns the index of the first row of `READS` for which `are_reads_told` is `false`, or `None` if there is no such
/// row.
fn first_other_reads(alloc: Global) -> Result<Option<usize>, Fail> {
    for (number, row) in READS.iter().enumerate() {
        if !are_reads_told(alloc, row)? {
            return Ok(Some(number));
        }
    }
    Ok(None)
}

/// Returns three results, each `None` if all is right. The first is the first offset at which cutting `TEXT` in two
/// changes the answers, if the second part comes in reads of one byte. The second is the first such offset for reads of
/// up to 100 bytes. The third is the index of the first row of `READS` that is wrong.
fn first_others(alloc: Global) -> Result<[Option<usize>; 3], Fail> {
    let by_bytes = first_cut_that_changes(alloc, 1)?;
    let at_once = first_cut_that_changes(alloc, 100)?;
    Ok([by_bytes, at_once, first_other_reads(alloc)?])
}

/// Checks that `TEXT` gives the same answers wherever it is cut in two. Then checks the rows of `READS`: a failed read
/// must be the last answer, after the right lines and the right number of reads.
#[test]
fn cuts_change_nothing_and_a_failed_read_ends_the_lines(rt: HostRuntime) -> Result<(), Fail> {
    assert_eq!(rt; first_others(rt.alloc())?, [None; 3]);
    Ok(())
}

/// Counts the lines before the first answer of `next` that isn't `Line`. Returns the count and that answer. If
/// `u32::MAX` lines come, returns this number and `Line`.
fn count_lines(lines: &mut Lines, reader: &mut FakeReader) -> (u32, Step) {
    for count in 0..u32::MAX {
        match lines.next(reader) {
            Step::Line => (),
            step => return (count, step),
        }
    }
    (u32::MAX, Step::Line)
}

/// Reads newlines, one more than the number of reads that are allowed (`MAX_READS`), and one in each read. Returns how
/// many empty lines come, the answer that ends them, and how many bytes are left unread.
fn lines_of_many_newlines(alloc: Global) -> Result<(u32, Step, usize), Fail> {
    let breaks = vec![in alloc; b'\n'; MAX_READS as usize + 1]?;
    counted_in(alloc, breaks.as_slice())
}

/// Reads `breaks`, one byte in each read. Returns how many lines come, the answer that ends them, and how many bytes
/// are left unread.
fn counted_in(alloc: Global, breaks: &[u8]) -> Result<(u32, Step, usize), Fail> {
    let mut reader = FakeReader::failing_after(usize::MAX, breaks);
    let mut lines = Lines::new(alloc, 4096)?;
    let (count, step) = count_lines(&mut lines, &mut reader);
    Ok((count, step, reader.rest.len()))
}

/// Reads a line of 4,096 bytes, the limit, one byte in each read. Returns whether the answers are the whole line and
/// then the end, and how many reads were made.
fn longest_line_by_bytes(alloc: Global) -> Result<(bool, usize), Fail> {
    let mut text = digits(alloc, 4096)?;
    text.push('\n')?;
    line_by_bytes(alloc, text.as_bytes())
}

/// Reads the line in `text`, which ends with a newline, one byte in each read. Returns whether the answers are the
/// whole line and then the end, and how many reads were made.
fn line_by_bytes(alloc: Global, text: &[u8]) -> Result<(bool, usize), Fail> {
    let mut reader = FakeReader::failing_after(usize::MAX, text);
    let mut lines = Lines::new(alloc, 4096)?;
    let is_line = lines.next(&mut reader) == Step::Line;
    let is_whole = text.strip_suffix(b"\n") == Some(lines.bytes());
    let is_end = lines.next(&mut reader) == Step::End;
    Ok((is_line && is_whole && is_end, reader.reads))
}

/// The results of `lines_of_many_newlines` and of `longest_line_by_bytes`.
type Counts = ((u32, Step, usize), (bool, usize));

/// Returns the results of `lines_of_many_newlines` and of `longest_line_by_bytes`, which read an input one byte at a
/// time.
fn counts(alloc: Global) -> Result<Counts, Fail> {
    Ok((
        lines_of_many_newlines(alloc)?,
        longest_line_by_bytes(alloc)?,
    ))
}

/// Checks that as many lines come as reads are allowed, if each line takes one read. Also checks that a line of 4,096
/// bytes comes whole, with one read for each byte and one that finds the end.
#[test]
fn reads_are_counted_over_all_lines(rt: HostRuntime) -> Result<(), Fail> {
    // One read for each byte, and one that finds the end.
    let wanted = ((MAX_READS, Step::ReadFault, 1), (true, 4098));
    assert_eq!(rt; counts(rt.alloc())?, wanted);
    Ok(())
}
