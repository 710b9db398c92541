//! The laws of the project that a teacher would cite in a class. Each can be read alone.
#![tactic(auto)]

pub mod laws;
