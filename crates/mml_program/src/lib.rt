//! The commands that `mml_server` has, and that `mml_host` has too, with their error lines and exit statuses.
#![tactic(auto)]

mod built_in;
mod fault;
mod files;
mod lab_refusal;
mod script_answering;
mod task;
mod words;

pub use built_in::BUILT_IN;
pub use fault::{Fault, memory_if_lacked, memory_or};
pub use files::{
    MAX_FILE, MAX_JOURNAL, begin_journal, begin_journal_with, read_file, read_journal,
};
pub use lab_refusal::{AuditRefusal, LabRefusal};
pub use script_answering::{answer_script, write_audit, write_pieces, write_size};
pub use task::{begin_program, command_words, lab_in, lab_of, run, run_task};
pub use words::{ScriptTask, ServeTask, Subcommand, Task, command_line, match_words, read_words};
