//! Tests of reading the command line. An error (`Fail`) means that words weren't read as a task, or memory ran out.
//!
//! An assertion inside a loop would need a loop invariant, so loops are in functions whose result a test asserts.
use mml_program::read_words;
use std::alloc::Global;
use std::test::Fail;

/// Splits a line at each space, and returns the words. Two spaces in a row have an empty word between them, and a space
/// at the end has one after it. Returns an error if memory runs out.
fn given(alloc: Global, line: &str) -> Result<Vec<String>, Fail> {
    let mut words = Vec::new(alloc);
    for word in line.split(' ') {
        let word = word.to_string(alloc)?;
        words.push(word)?;
    }
    Ok(words)
}

/// Command lines, each with the debug text of the task that it must be read as.
const FORMS: &[(&str, &str)] = &[
    ("mml", "BuiltIn"),
    ("mml check a", "Check { lab: \"a\" }"),
    (
        "mml check some/lab.toml",
        "Check { lab: \"some/lab.toml\" }",
    ),
    ("mml check check", "Check { lab: \"check\" }"),
    ("mml check help", "Check { lab: \"help\" }"),
    ("mml check ", "Check { lab: \"\" }"),
    (
        "mml script a b",
        "Script(ScriptTask { lab: \"a\", script: \"b\", journal: None })",
    ),
    (
        "mml script a a",
        "Script(ScriptTask { lab: \"a\", script: \"a\", journal: None })",
    ),
    (
        "mml script a b c",
        "Script(ScriptTask { lab: \"a\", script: \"b\", journal: Some(\"c\") })",
    ),
    (
        "mml script a b ",
        "Script(ScriptTask { lab: \"a\", script: \"b\", journal: Some(\"\") })",
    ),
    ("mml audit a b", "Audit { lab: \"a\", journal: \"b\" }"),
    (
        "mml script help version",
        "Script(ScriptTask { lab: \"help\", script: \"version\", journal: None })",
    ),
    (
        "mml serve a 1 1",
        "Serve(ServeTask { lab: \"a\", port: 1, connections: 1, journal: None })",
    ),
    (
        "mml serve a 65535 16 b",
        "Serve(ServeTask { lab: \"a\", port: 65535, connections: 16, journal: Some(\"b\") })",
    ),
    (
        "mml serve 7000 7000 10 ",
        "Serve(ServeTask { lab: \"7000\", port: 7000, connections: 10, journal: Some(\"\") })",
    ),
];

/// Returns whether these words are read as the task with the debug text `wanted`. Returns an error if they are no task,
/// or memory runs out.
fn is_task(alloc: Global, words: &[String], wanted: &str) -> Result<bool, Fail> {
    let task = read_words(alloc, words)?;
    let found = format!(in alloc; "{task:?}")?;
    Ok(found.as_str() == wanted)
}

/// Returns the first line of `FORMS` that is read as another task, or `None` if all are right.
fn first_other(alloc: Global) -> Result<Option<&'static str>, Fail> {
    for (line, wanted) in FORMS {
        let words = given(alloc, line)?;
        if !is_task(alloc, words.as_slice(), wanted)? {
            return Ok(Some(*line));
        }
    }
    Ok(None)
}

/// Checks that each line of `FORMS` is read as its task, and an empty list of words as the task over the built-in lab.
#[test]
fn each_form_is_taken(rt: HostRuntime) -> Result<(), Fail> {
    let are_none_taken = is_task(rt.alloc(), &[], "BuiltIn")?;
    assert_eq!(rt; (first_other(rt.alloc())?, are_none_taken), (None, true));
    Ok(())
}
