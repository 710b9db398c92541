//! The files of a run: journals, of which no earlier bytes are lost, and the file operations that records share.
#![tactic(auto)]

mod file_fault;
mod lab_copy;
mod limits;
mod old_journal;
mod open_journal;
mod paths;
mod pipe;

pub use file_fault::FileFault;
pub use lab_copy::LabFile;
pub use limits::{file_size_limit, has_small_stacks};
pub use old_journal::OldJournal;
pub use open_journal::{BegunJournal, OpenJournal};
pub use paths::{is_there, sync_folder};
