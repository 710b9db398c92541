//! A script whose lines are answered as they come.
//!
//! A script is a list of request lines, each after the number of its connection.
use crate::fault::Fault;
use mml_ends::Retrying;
use mml_journal::NullSink;
use mml_program::{answer_script, lab_of, memory_if_lacked};
use std::io;
use std::rt::Files;

/// Answers the script on standard input over the lab in a file. All replies are written before each read, so that a
/// program can send a line after it has got the reply to the one before. Returns an error if the lab file is refused,
/// or the script ended early.
pub fn answer<R: Files + Input + Print + AllocGlobal>(rt: &R, lab: &str) -> Result<(), Fault> {
    let lab = lab_of(rt, lab)?;
    let mut reader = Retrying::new(rt.reader());
    let mut writer = Retrying::new(io::writer(rt));
    match answer_script(rt.alloc(), lab, &mut reader, &mut writer, NullSink::new()) {
        Ok(hall) => {
            // A call of `drop` keeps the proof short.
            drop(hall);
            Ok(())
        }
        Err(fault) => Err(Fault::from(memory_if_lacked(
            fault,
            reader.lacked_memory || writer.lacked_memory,
        ))),
    }
}
