//! A smaller program than the one that people run: it checks lab files, answers scripts and serves connections over
//! them, and audits journals.
#![tactic(auto)]

use std::process::ExitCode;

/// Does what the command line asks for. Returns the exit status: 0, or that of the error, whose line is printed on
/// standard error.
fn main(rt: HostRuntime) -> ExitCode {
    match mml_program::run(&rt) {
        Ok(()) => ExitCode::SUCCESS,
        Err(fault) => {
            let _ = eprintln!(rt; "{fault}");
            ExitCode::from(fault.status())
        }
    }
}
