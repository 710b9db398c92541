//! Tests of the command line's words, of reading whole files, and of beginning a journal's file. An error (`Fail`)
//! means that the system refused a call, or memory ran out.
//!
//! A journal has a line for each granted event of a run, and a sink is the destination of its bytes.
use mml_ends::hold_streams;
use mml_fakes::scripts::ANA_JOURNAL;
use mml_files::OpenJournal;
use mml_journal::Sink;
use mml_program::{
    BUILT_IN, Fault, begin_journal_with, command_words, lab_of, read_file, read_journal,
};
use std::path::{Path, PathBuf};
use std::test::Fail;
use std::{env, fs, process};

/// Returns a path in the folder for temporary files. The name has this process's number, and ends with `end`.
fn path_of_process(rt: &HostRuntime, end: &str) -> Result<PathBuf, Fail> {
    let name = format!(in rt.alloc(); "mml_tests_sessions_{}{end}", process::id(rt.process()))?;
    let folder = env::temp_dir(rt)?;
    Ok(folder.join(rt.alloc(), name.as_str())?)
}

/// Returns whether the result `found` of a read is as `wanted`: the same bytes, or the same fault.
fn is_read(found: Result<Vec<u8>, Fault>, wanted: Result<&[u8], Fault>) -> bool {
    match (found, wanted) {
        (Ok(bytes), Ok(wanted)) => bytes.as_slice() == wanted,
        (Err(fault), Err(wanted)) => fault == wanted,
        _ => false,
    }
}

/// Opens a journal at a path, and begins it by `begin_journal_with`, which also returns what else a task needs. Here
/// that is the number 7. Returns whether this number is returned, and the journal's sink stores a whole line.
fn is_begun(rt: &HostRuntime, path: &str) -> bool {
    let Ok(journal) = OpenJournal::open(rt, path, &[]) else {
        return false;
    };
    let needed: Result<u64, Fault> = Ok(7);
    match begin_journal_with(rt, journal, needed) {
        Ok((needed, mut sink)) => needed == 7
            && sink.put(ANA_JOURNAL.as_bytes()) == Ok(ANA_JOURNAL.len()),
        Err(_) => false,
    }
}

/// Begins a journal at `path`, the path of a file with the built-in lab. Returns whether the lab can be read from
/// `path` before, the journal's line can be read from there afterwards, and the lab's text is then at `kept`.
fn is_kept(rt: &HostRuntime, path: &str, kept: &str) -> bool {
    let old = lab_of(rt, path).is_ok_and(|lab| lab.node_count() == 3);
    let is_begun = is_begun(rt, path);
    let new = is_read(read_journal(rt, path), Ok(ANA_JOURNAL.as_bytes()));
    let kept = is_read(
        read_file(rt, kept, Fault::ReadScript),
        Ok(BUILT_IN.as_bytes()),
    );
    old && is_begun && new && kept
}

/// Writes the built-in lab's file at `path`, calls `is_kept`, and removes the files at `path` and `kept`. Returns the
/// result of `is_kept`, or an error if a file can't be written or removed.
fn check_paths(rt: &HostRuntime, path: Path<'_>, kept: Path<'_>) -> Result<bool, Fail> {
    fs::write(rt, path, BUILT_IN.as_bytes())?;
    let text = path.to_str().ok_or("a path")?;
    let is_kept = is_kept(rt, text, kept.to_str().ok_or("a path")?);
    fs::remove_file(rt, path)?;
    fs::remove_file(rt, kept)?;
    Ok(is_kept)
}

/// Checks that a file is read whole, that a journal is begun in its place, and that the old file is kept. Also checks
/// that the command line has words, and the standard streams can be held open.
#[test]
fn files_are_read_and_journals_begun(rt: HostRuntime) -> Result<(), Fail> {
    let path = path_of_process(&rt, "")?;
    let kept = path_of_process(&rt, ".~1~")?;
    let is_kept = check_paths(&rt, path.as_path(), kept.as_path())?;
    let has_words = command_words(&rt).is_ok_and(|words| !words.is_empty());
    let are_held = hold_streams(&rt).is_ok();
    assert_eq!(rt; (is_kept, has_words, are_held), (true, true, true));
    Ok(())
}

/// Checks that reading a path with a null byte, which no command line has, fails with the fault that was passed for it.
#[test]
fn a_path_with_a_null_is_not_read(rt: HostRuntime) {
    let lab = is_read(read_file(&rt, "a\0b", Fault::ReadLab), Err(Fault::ReadLab));
    let script = is_read(
        read_file(&rt, "a\0b", Fault::ReadScript),
        Err(Fault::ReadScript),
    );
    assert_eq!(rt; (lab, script), (true, true));
}
