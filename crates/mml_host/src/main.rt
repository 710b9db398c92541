//! The program for people. This program checks labs, answers scripts, serves connections and classes, judges what a run
//! left, and prints the limits.
#![tactic(auto)]

use mml_host_program::{JournalEye, run};
use mml_program::begin_program;
use std::fmt::Display;
use std::process::ExitCode;

/// Does what the command line asks for. Returns the exit status: 0, or that of the error, whose line is printed on
/// standard error.
fn main(rt: HostRuntime) -> ExitCode {
    let words = match begin_program(&rt) {
        Ok(words) => words,
        Err(fault) => return print_error(&rt, &fault, fault.status()),
    };
    let eye = JournalEye { rt: &rt };
    match run(&rt, &eye, words.as_slice()) {
        Ok(()) => ExitCode::SUCCESS,
        Err(fault) => print_error(&rt, &fault, fault.status()),
    }
}

/// Prints an error's line on standard error, and returns the exit status that goes with it.
fn print_error<R: Eprint, E: Display>(rt: &R, fault: &E, status: u8) -> ExitCode {
    let _ = eprintln!(rt; "{fault}");
    ExitCode::from(status)
}
