//! Tests of reading and writing whole inputs, and of lines that are written together. An error means that memory ran
//! out.
use mml_fakes::{FakeReader, FakeWriter, Refusal};
use mml_lines::{Outgoing, WriteFault, put_all, read_whole};
use std::alloc::Global;
use std::io::ErrorKind;
use std::test::Fail;

/// Calls `read_whole` with a limit of six bytes, for a reader of `input` that returns one byte in a read and fails with
/// `kind` after `good` reads. Returns the bytes as text, or the name of the error.
fn bytes_or_fault(
    alloc: Global,
    input: &[u8],
    good: usize,
    kind: ErrorKind,
) -> Result<String, Fail> {
    let mut reader = FakeReader::failing_after(good, input);
    reader.kind = kind;
    match read_whole(alloc, reader, 6) {
        Ok(bytes) => Ok(String::from_utf8(bytes)?),
        Err(fault) => Ok(format!(in alloc; "{fault:?}")?),
    }
}

// Inputs, each with the number of good reads, the error after them, and what `bytes_or_fault` must return.
const INPUTS: &[(&str, usize, ErrorKind, &str)] = &[
    ("", 100, ErrorKind::Other, ""),
    ("abc", 100, ErrorKind::Other, "abc"),
    ("abcdef", 100, ErrorKind::Other, "abcdef"),
    // One byte over the limit shows that the input is too long, and no read comes after it.
    ("abcdefghi", 0, ErrorKind::Other, "Read"),
    ("abcdefghi", 6, ErrorKind::Other, "Read"),
    ("abcdefghi", 7, ErrorKind::Other, "TooLong"),
    ("abcdefg", 100, ErrorKind::Other, "TooLong"),
    ("abc", 1, ErrorKind::OutOfMemory, "Memory"),
];

/// Returns the index of the first row of `INPUTS` for which `bytes_or_fault` is wrong, or `None` if all are right.
fn first_other(alloc: Global) -> Result<Option<usize>, Fail> {
    for (row, (input, good, kind, wanted)) in INPUTS.iter().enumerate() {
        if bytes_or_fault(alloc, input.as_bytes(), *good, *kind)?.as_str() != *wanted {
            return Ok(Some(row));
        }
    }
    Ok(None)
}

/// Checks that an input is read whole within a limit of six bytes, and that a longer one and a failed read have the
/// right error.
#[test]
fn readers_are_read_up_to_a_limit(rt: HostRuntime) -> Result<(), Fail> {
    assert_eq!(rt; first_other(rt.alloc())?, None);
    Ok(())
}

/// Calls `put_all` for a writer that takes `step` bytes in each of `good` writes and then refuses, as `refusal` says.
/// Returns whether exactly the bytes of these writes are written, and nothing is flushed, so that `good_flushes` is
/// still `usize::MAX`. If bytes are left, the result must be an error that says how many were written.
fn puts(alloc: Global, bytes: &[u8], step: usize, good: usize, refusal: Refusal) -> bool {
    let mut writer = FakeWriter::failing_after(good, alloc);
    writer.step = step;
    writer.refusal = refusal;
    let (out, rest) = bytes.split_at(usize::saturating_mul(step, good).min(bytes.len()));
    let wanted = if rest.is_empty() {
        Ok(())
    } else {
        Err(WriteFault { written: out.len() })
    };
    let told = put_all(&mut writer, bytes);
    told == wanted && writer.taken.as_slice() == out && writer.good_flushes == usize::MAX
}

// How often a text of ten digits is repeated, how many bytes each write takes, and how many writes succeed.
const PUTS: &[(usize, usize, usize)] = &[
    (1, 3, 1),
    (1, 1, 0),
    (1, 1, 9),
    (1, 4, 2),
    (1, 1, 10),
    (1, 3, 4),
    (1, 100, 1),
    (200, 1, 0),
    (200, 1, 1),
    (200, 1, 285),
    (200, 1, 286),
    (200, 1, 1999),
    (200, 1, 2000),
    (200, 1, 2001),
    (200, 7, 0),
    (200, 7, 1),
    (200, 7, 285),
    (200, 7, 286),
    (200, 7, 1999),
    (200, 7, 2000),
    (200, 7, 2001),
];

/// Returns the index of the first row of `PUTS` for which `puts` is `false` for a writer with this refusal, or `None`
/// if there is no such row.
fn first_other_put(alloc: Global, refusal: Refusal) -> Result<Option<usize>, Fail> {
    for (row, (times, step, good)) in PUTS.iter().enumerate() {
        let text = "0123456789".repeat(alloc, *times)?;
        if !puts(alloc, text.as_bytes(), *step, *good, refusal) {
            return Ok(Some(row));
        }
    }
    Ok(None)
}

/// Puts 512 lines of four bytes each into an `Outgoing`, then one more line, and then flushes it. Returns how many
/// bytes the writer has after each of these three steps. The writer never refuses, so the results of the calls are
/// ignored.
fn sent(alloc: Global) -> Result<[usize; 3], Fail> {
    let mut outgoing = Outgoing::new(alloc)?;
    let mut writer = FakeWriter::patient(alloc);
    let mut out = [0usize; 3];
    for _ in 0..512 {
        let _put = outgoing.put(b"1 ", b"a\n", &mut writer);
    }
    out[0] = writer.taken.len();
    let _put = outgoing.put(b"1 ", b"a\n", &mut writer);
    out[1] = writer.taken.len();
    let _flushed = outgoing.flush(&mut writer);
    out[2] = writer.taken.len();
    Ok(out)
}

/// The results of `first_other_put` for writers that fail and for writers that write nothing, and that of `sent`.
type Written = (Option<usize>, Option<usize>, [usize; 3]);

/// Returns three results. The first is the index of the first row of `PUTS` that is wrong if the writer fails after its
/// good writes. The second is that index if the writer takes no bytes after its good writes instead. Both are `None` if
/// all rows are right. The third is how many bytes an `Outgoing` has written after 512 lines, after one more, and after
/// a flush (`sent`).
fn results_of_writes(alloc: Global) -> Result<Written, Fail> {
    let failed = first_other_put(alloc, Refusal::Fails(ErrorKind::Other))?;
    let refused = first_other_put(alloc, Refusal::TakesNothing)?;
    Ok((failed, refused, sent(alloc)?))
}

/// Checks that `put_all` writes exactly what the writer takes, and its error says how many bytes these are. Also checks
/// that an `Outgoing` buffers 512 lines of four bytes, and writes them when another line comes.
#[test]
fn writes_tell_what_went_out(rt: HostRuntime) -> Result<(), Fail> {
    assert_eq!(rt;
        results_of_writes(rt.alloc())?,
        (None, None, [0, 2048, 2052])
    );
    Ok(())
}
