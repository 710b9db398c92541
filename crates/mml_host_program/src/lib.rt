//! The commands of the program for people: those of `mml_program`, those that serve a class, those that judge what a
//! class has left, and the table of limits.
#![tactic(auto)]

mod beginning;
mod class;
mod fault;
mod going_on;
mod hosting;
mod journal_watch;
mod judging;
mod limit_table;
mod limits;
mod old_file;
mod opening;
mod resumed;
mod socket_class;
mod system;
mod task;
mod words;

pub use beginning::write_listening;
pub use fault::Fault;
pub use journal_watch::{JournalEye, JournalLoss, JournalWatch, Look, WatchedSink};
pub use judging::{ClassError, RecordRefusal, judge_class, write_tally};
pub use limit_table::{print_limits, write_limits};
pub use old_file::OldFile;
pub use system::System;
pub use task::run;
pub use words::{
    ClassTask, HostTask, JudgingTask, ResumeTask, TallyTask, Task, VerifyTask, read_port,
    read_words,
};
