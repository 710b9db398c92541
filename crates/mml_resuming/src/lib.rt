//! A class that is resumed from its journal: the audit of the old journal, and a host that continues after its events.
//!
//! The audit reads the journal's list of events, and checks that each event is allowed after the earlier ones.
#![tactic(auto)]

pub mod laws;
mod resuming;

pub use resuming::{
    AuditedJournal, ResumeFault, Store, read_old_journal, resume_audited, resume_class,
};
