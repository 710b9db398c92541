//! Reading a lab file, which results in a lab or in the file's first error, and comparing two labs in everything that a
//! journal depends on.
#![tactic(auto)]

mod build;
mod checks;
mod enrolling;
mod forms;
mod lab_reading;
pub mod laws;
mod links;
mod raw_lab;
mod sameness;

pub use lab_reading::read_lab;
pub use sameness::{is_same_lab, spells_same_lab};
