//! Laws about whole runs, by their subjects. Each is the contract of a function that does nothing.

pub mod choices;
pub mod classes;
pub mod columns;
pub mod ends;
pub mod files;
pub mod finishes;
pub mod greetings;
pub mod halting;
pub mod journal_words;
pub mod journals;
pub mod looks;
pub mod marks;
pub mod one_script;
pub mod places;
pub mod rest;
pub mod rulings;
pub mod same_labs;
pub mod witnesses;
pub mod words;
