//! Commands that serve no connections: `verify` and `tally` check the record and the journal of a class, and `answer`
//! answers a script line by line.
//!
//! The journal of a class has a line for each granted event. The record of a class has the lines of its connections and
//! the replies. The tally has counts of what happened in a run. A `task` has the paths of the files and the folder
//! that its subcommand reads. Values are dropped by calls of `drop` before a function returns, which keeps the proofs
//! short.

mod answering;
mod class_error;
mod class_writing;
mod folder;
mod judged;
mod record_refusal;
mod recorded;
mod tally;
mod verifying;

use crate::fault::Fault;
use crate::words::{JudgingTask, TallyTask, VerifyTask};
use answering::answer;
pub use class_error::ClassError;
use class_error::result_of;
use folder::Folder;
pub use judged::judge_class;
use mml_ends::Retrying;
use mml_lab::Lab;
use mml_program::{Fault as ProgramFault, lab_of, read_journal};
pub use record_refusal::RecordRefusal;
use std::fs::File;
use std::io;
use std::rt::Files;
pub use tally::write_tally;

/// Does what a judging task asks for. Returns the error that ended the work, if one did.
pub(crate) fn judge<R: Files<File = File> + Input + Print + AllocGlobal>(
    rt: &R,
    task: JudgingTask<'_>,
) -> Result<(), Fault> {
    match task {
        JudgingTask::Answer { lab } => answer(rt, lab),
        JudgingTask::Verify(task) => judge_record(rt, task, false),
        JudgingTask::Tally(task) => judge_journal(rt, task),
        JudgingTask::TallyRecorded(task) => judge_record(rt, task, true),
    }
}

/// Prints the tally of a journal. Returns an error if the lab or the journal is refused or can't be read, a write
/// fails, or memory runs out.
fn judge_journal<R: Files + Print + AllocGlobal>(rt: &R, task: TallyTask<'_>) -> Result<(), Fault> {
    let (lab, journal) = read_run(rt, task.lab, task.journal)?;
    let mut writer = Retrying::new(io::writer(rt));
    let written = write_tally(rt.alloc(), &lab, journal, &mut writer);
    drop(lab);
    result_of(written, writer.lacked_memory)
}

/// Checks the record of a class against its journal. If `is_tallied` is set, prints the tally of both, and otherwise
/// what the check found. Returns an error if the lab, the journal or the record is refused or can't be read, a write
/// fails, or memory runs out.
fn judge_record<R: Files<File = File> + Print + AllocGlobal>(
    rt: &R,
    task: VerifyTask<'_>,
    is_tallied: bool,
) -> Result<(), Fault> {
    let (lab, journal) = read_run(rt, task.lab, task.journal)?;
    let path = task.folder;
    let seats = Folder { rt, path };
    let mut writer = Retrying::new(io::writer(rt));
    let written = judge_class(rt.alloc(), &lab, journal, &seats, is_tallied, &mut writer);
    drop(lab);
    result_of(written, writer.lacked_memory)
}

/// Returns the lab in a file, and the text of the journal in another file. Returns an error if the lab is refused, a
/// file can't be read, or memory runs out.
fn read_run<R: Files + AllocGlobal>(
    rt: &R,
    lab: &str,
    journal: &str,
) -> Result<(Lab, Vec<u8>), ProgramFault> {
    let lab = lab_of(rt, lab)?;
    match read_journal(rt, journal) {
        Ok(journal) => Ok((lab, journal)),
        Err(fault) => {
            drop(lab);
            Err(fault)
        }
    }
}
