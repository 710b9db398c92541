//! Tests of the model and the journal. The tests cover what no script, audit or lab file can test, for example sets,
//! and sinks that fail. Other tests check that each public call that can report out of memory succeeds if there is
//! enough.
#![tactic(auto)]

#[cfg(test)]
mod board;
#[cfg(test)]
mod drawn;
#[cfg(test)]
mod ids;
#[cfg(test)]
mod journal;
#[cfg(test)]
mod lab;
#[cfg(test)]
mod policy;
#[cfg(test)]
mod report;
#[cfg(test)]
mod sets;
#[cfg(test)]
mod sinks;
