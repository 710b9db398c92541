//! Reading the words of the command line.
//!
//! A lab file describes a class: its network, its participants and its limits. Values are the words after a subcommand.

use crate::fault::Fault;
use clap::error::ErrorKind;
use clap::{Arg, ArgAction, ArgMatches, Command};
use mml_serving::{read_connections, read_port};
use std::alloc::{AllocError, Global};
use std::num::{NonZeroU8, NonZeroU16};

/// A subcommand: its name, the values that it requires in this order, and the values that may follow.
pub type Subcommand = (
    &'static str,
    &'static [&'static str],
    &'static [&'static str],
);

// The subcommands that both programs have.
const SUBCOMMANDS: &[Subcommand] = &[
    ("check", &["lab"], &[]),
    ("script", &["lab", "script"], &["journal"]),
    ("audit", &["lab", "journal"], &[]),
    ("serve", &["lab", "port", "connections"], &["journal"]),
];

/// The task that the command line asks for.
#[derive(Debug, Drop)]
pub enum Task<'a> {
    /// Answer the script on standard input over the built-in lab.
    BuiltIn,
    /// Print how large the lab in a file is.
    Check { lab: &'a str },
    /// Answer the script in a file over the lab in a file.
    Script(ScriptTask<'a>),
    /// Audit the text of a file as the journal of a run of the lab in a file.
    Audit { lab: &'a str, journal: &'a str },
    /// Serve connections over the lab in a file.
    Serve(ServeTask<'a>),
}

/// The files of a script. If a journal is named, the lines of granted events are written to it.
#[derive(Debug, Drop)]
pub struct ScriptTask<'a> {
    pub lab: &'a str,
    pub script: &'a str,
    pub journal: Option<&'a str>,
}

/// A lab file, a port, and the number of connections to serve there. If a journal is named, the lines of granted events
/// are written to it.
#[derive(Debug, Drop)]
pub struct ServeTask<'a> {
    pub lab: &'a str,
    pub port: NonZeroU16,
    pub connections: NonZeroU8,
    pub journal: Option<&'a str>,
}

/// Returns the task that these words ask for; the first word is the program's name. Returns `CommandLine` if the words
/// don't fit any task, and `Memory` if memory runs out.
pub fn read_words<'a>(alloc: Global, words: &'a [String]) -> Result<Task<'a>, Fault> {
    let matches = match_words(command_line(alloc, "mml_server", SUBCOMMANDS)?, words)?;
    let task = match matches.subcommand() {
        None => Ok(Task::BuiltIn),
        Some((name, values)) => task_of(name, values).ok_or(Fault::CommandLine),
    };
    // A call of `drop` keeps the proof short.
    drop(matches);
    task
}

/// Matches the words, of which the first is the program's name, with the description `command`, and returns the values
/// that they have for it. Returns `CommandLine` if the words don't fit the description, and `Memory` if memory runs
/// out. Words that begin with `-` are refused here, since clap would accept `-` and `--`.
pub fn match_words<'a>(command: Command<'a>, words: &'a [String]) -> Result<ArgMatches<'a>, Fault> {
    if words.iter().skip(1).any(|word| word.starts_with('-')) {
        // A call of `drop` keeps the proof short.
        drop(command);
        return Err(Fault::CommandLine);
    }
    match command.try_get_matches_from(words) {
        Ok(matches) => Ok(matches),
        Err(error) if error.kind() == ErrorKind::OutOfMemory => Err(Fault::Memory),
        Err(_) => Err(Fault::CommandLine),
    }
}

/// Returns the task of the subcommand `name` with these values. Returns `None` if there is no such subcommand, a value
/// is missing, or the port or the number of connections isn't a number in its range.
fn task_of<'a>(name: &str, values: &ArgMatches<'a>) -> Option<Task<'a>> {
    let lab = values.get_str("lab")?;
    match name {
        "check" => Some(Task::Check { lab }),
        "script" => Some(Task::Script(ScriptTask {
            lab,
            script: values.get_str("script")?,
            journal: values.get_str("journal"),
        })),
        "audit" => {
            let journal = values.get_str("journal")?;
            Some(Task::Audit { lab, journal })
        }
        "serve" => Some(Task::Serve(ServeTask {
            lab,
            port: read_port(values.get_str("port")?)?,
            connections: read_connections(values.get_str("connections")?)?,
            journal: values.get_str("journal"),
        })),
        _ => None,
    }
}

/// Returns the description of a program's command line: its `name`, and these subcommands. Returns an error if memory
/// runs out.
pub fn command_line<'a>(
    alloc: Global,
    name: &'a str,
    subcommands: &[Subcommand],
) -> Result<Command<'a>, AllocError> {
    let mut command = command_without_help(alloc, name);
    for (name, required, optional) in subcommands {
        let subcommand = subcommand_of(alloc, name, required, optional);
        command = with_subcommand(command, subcommand)?;
    }
    Ok(command)
}

/// Returns the description `command` with one more subcommand. If `subcommand` is an error, returns this error. Also
/// returns an error if memory runs out.
fn with_subcommand<'a>(
    command: Command<'a>,
    subcommand: Result<Command<'a>, AllocError>,
) -> Result<Command<'a>, AllocError> {
    match subcommand {
        Ok(subcommand) => command.subcommand(subcommand),
        Err(error) => {
            // A call of `drop` keeps the proof short.
            drop(command);
            Err(error)
        }
    }
}

/// Returns the description of a subcommand with this name. It requires values with the names in `required`, in this
/// order. After them may come the values in `optional`. Returns an error if memory runs out.
fn subcommand_of<'a>(
    alloc: Global,
    name: &'a str,
    required: &[&'a str],
    optional: &[&'a str],
) -> Result<Command<'a>, AllocError> {
    let mut command = command_without_help(alloc, name);
    for value in required {
        command = command.arg(Arg::new(alloc, value).required(true).action(ArgAction::Set))?;
    }
    for value in optional {
        command = command.arg(Arg::new(alloc, value).action(ArgAction::Set))?;
    }
    Ok(command)
}

/// Returns the description of a command with this name. The description has no flags for help and version, and no
/// subcommand for help.
fn command_without_help<'a>(alloc: Global, name: &'a str) -> Command<'a> {
    Command::new(alloc, name)
        .disable_help_flag(true)
        .disable_version_flag(true)
        .disable_help_subcommand(true)
}
