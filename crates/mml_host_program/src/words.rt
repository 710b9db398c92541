//! Reading the words of the command line.
//!
//! Values are the words after a subcommand. The judging tasks are those of `answer`, `verify` and `tally`. They are
//! read by several small functions. The contract of each cites a definition of its own, which its proof unfolds. The
//! program for people is `mml_host`; the smaller `mml_server` has only the subcommands of `mml_program`.
ghost use Rattle.std.specs.Prelude.{◌≡◌, MatchOption, option_map};
ghost use Rattle.clap.specs.Matches.{found_of};
ghost use Rattle.mml_journal.specs.Words.{seen};
ghost use Rattle.mml_host_program.specs.Ports.{Names, NamesNone};
ghost use Rattle.mml_host_program.specs.Words.{tally_in, tally_wanted, verify_in, wanted_by, wanted_in, wanted_over};

use clap::ArgMatches;
use mml_program::{
    Fault as ProgramFault, Subcommand, Task as ProgramTask, command_line, match_words,
    read_words as read_common_words,
};
use mml_serving::read_port as read_some_port;
use std::alloc::Global;

// The subcommands that only the program for people has. `mml_program` has the others.
const SUBCOMMANDS: &[Subcommand] = &[
    ("host", &["lab", "port", "desk"], &["journal", "record"]),
    ("resume", &["lab", "port", "desk", "journal"], &["record"]),
    ("verify", &["lab", "journal", "record"], &[]),
    ("tally", &["lab", "journal"], &["record"]),
    ("answer", &["lab"], &[]),
    ("limits", &[], &[]),
];

/// The task that the command line asks for.
#[derive(Drop)]
pub enum Task<'a> {
    /// A task of `mml_program`.
    Common(ProgramTask<'a>),
    /// Serve a new class.
    Host(HostTask<'a>),
    /// Resume a class from its journal, and serve it.
    Resume(ResumeTask<'a>),
    /// Judge what a class has left, or answer a script line by line.
    Judge(JudgingTask<'a>),
    /// Print the limits of a class.
    Limits,
}

/// A lab and the two ports of its class; for 0, the system chooses a port. If a record is named, the lines of each seat
/// are written there.
#[derive(Drop)]
pub struct ClassTask<'a> {
    pub lab: &'a str,
    pub port: u16,
    pub desk: u16,
    pub record: Option<&'a str>,
}

/// A new class. If a journal is named, the lines of granted events are written to it.
#[derive(Drop)]
pub struct HostTask<'a> {
    pub class: ClassTask<'a>,
    pub journal: Option<&'a str>,
}

/// A class that is resumed: the journal has what was granted before, and will have what is granted from now on.
#[derive(Drop)]
pub struct ResumeTask<'a> {
    pub class: ClassTask<'a>,
    pub journal: &'a str,
}

/// A task that judges what a class has left, or answers a script line by line. It serves no connections.
#[derive(Drop)]
pub enum JudgingTask<'a> {
    /// Answer the script on standard input over the lab in a file.
    Answer { lab: &'a str },
    /// Check the record of a class.
    Verify(VerifyTask<'a>),
    /// Print the tally of a journal.
    Tally(TallyTask<'a>),
    /// Print the tally of a journal together with a record.
    TallyRecorded(VerifyTask<'a>),
}

/// The folder of a class's record, with its lab and its journal.
#[derive(Drop)]
pub struct VerifyTask<'a> {
    pub lab: &'a str,
    pub journal: &'a str,
    pub folder: &'a str,
}

/// A lab, and the journal of one of its runs.
#[derive(Drop)]
pub struct TallyTask<'a> {
    pub lab: &'a str,
    pub journal: &'a str,
}

/// Returns the task that these words ask for; the first word is the program's name. If the second word isn't a
/// subcommand of `SUBCOMMANDS`, `read_words` of `mml_program` reads them. Returns `CommandLine` if the words don't fit
/// any task, and `Memory` if memory runs out.
pub fn read_words<'a>(alloc: Global, words: &'a [String]) -> Result<Task<'a>, ProgramFault> {
    if !has_own_subcommand(words) {
        return Ok(Task::Common(read_common_words(alloc, words)?));
    }
    let matches = match_words(command_line(alloc, "mml", SUBCOMMANDS)?, words)?;
    let task = match matches.subcommand() {
        None => Err(ProgramFault::CommandLine),
        Some((name, values)) => task_of(name, values).ok_or(ProgramFault::CommandLine),
    };
    // A call of `drop` keeps the proof short.
    drop(matches);
    task
}

/// Returns whether the first word after the program's name is a subcommand of `SUBCOMMANDS`, which only the program for
/// people has.
fn has_own_subcommand(words: &[String]) -> bool {
    match words.get(1) {
        Some(word) => SUBCOMMANDS.iter().any(|it| it.0 == word.as_str()),
        None => false,
    }
}

/// Returns the task of the subcommand `name` with these values. Returns `None` if there is no such subcommand, a value
/// is missing, or `read_port` doesn't accept the value of a port.
fn task_of<'a>(name: &str, values: &ArgMatches<'a>) -> Option<Task<'a>> {
    match name {
        "host" => Some(Task::Host(HostTask {
            class: class_task(values)?,
            journal: values.get_str("journal"),
        })),
        "resume" => Some(Task::Resume(ResumeTask {
            class: class_task(values)?,
            journal: values.get_str("journal")?,
        })),
        "limits" => Some(Task::Limits),
        _ => Some(Task::Judge(judging_task(name, values)?)),
    }
}

/// Returns the class that these values name: its lab, its ports, and the folder of its record. Returns `None` if the
/// lab or a port is missing, or `read_port` doesn't accept the value of a port.
fn class_task<'a>(values: &ArgMatches<'a>) -> Option<ClassTask<'a>> {
    Some(ClassTask {
        lab: values.get_str("lab")?,
        port: read_port(values.get_str("port")?)?,
        desk: read_port(values.get_str("desk")?)?,
        record: values.get_str("record"),
    })
}

/// Returns the port that a text names: a number up to 65535 in decimal, without sign or leading zero. For 0 the system
/// will choose a port. Returns `None` for any other text.
pub fn read_port(text: &str) -> Option<u16>
    ensures { MatchOption result (NamesNone text.now) (Names text.now) }
{
    if text == "0" {
        return Some(0);
    }
    match read_some_port(text) {
        Some(port) => Some(port.get()),
        None => None,
    }
}

/// Returns the task of the subcommand `name` with these values. Returns `None` if the subcommand isn't `answer`,
/// `verify` or `tally`, or a value that it requires is missing.
#[tactic(auto, unfolding(crate::specs::Words::wanted_in))]
fn judging_task<'a>(name: &str, values: &ArgMatches<'a>) -> Option<JudgingTask<'a>>
    ensures { option_map wanted_by result ≡ wanted_in name.now (found_of values.now) }
{
    let lab = values.get_str("lab")?;
    judging_task_over(lab, name, values)
}

/// Returns the task of the subcommand `name` with these values, for the lab in the file `lab`. Returns `None` if the
/// subcommand isn't `answer`, `verify` or `tally`, or another value that it requires is missing.
#[tactic(auto, unfolding(crate::specs::Words::wanted_over))]
fn judging_task_over<'a>(
    lab: &'a str,
    name: &str,
    values: &ArgMatches<'a>,
) -> Option<JudgingTask<'a>>
    ensures { option_map wanted_by result ≡ wanted_over lab.now name.now (found_of values.now) }
{
    if name == "answer" {
        Some(JudgingTask::Answer { lab })
    } else if name == "verify" {
        verify_over(lab, values)
    } else if name == "tally" {
        tally_over(lab, values)
    } else {
        None
    }
}

/// Returns the task of the subcommand `verify` with these values, for the lab in the file `lab`. Returns `None` if the
/// journal or the record is missing.
#[tactic(auto, unfolding(crate::specs::Words::verify_in))]
fn verify_over<'a>(lab: &'a str, values: &ArgMatches<'a>) -> Option<JudgingTask<'a>>
    ensures { option_map wanted_by result ≡ verify_in lab.now (found_of values.now) }
{
    let journal = values.get_str("journal")?;
    let folder = values.get_str("record")?;
    Some(JudgingTask::Verify(VerifyTask {
        lab,
        journal,
        folder,
    }))
}

/// Returns the task of printing the tally of the journal that these values name, for the lab in the file `lab`. If they
/// also name a record, the task is to print the tally of both. Returns `None` if the journal is missing.
#[tactic(auto, unfolding(crate::specs::Words::tally_in))]
fn tally_over<'a>(lab: &'a str, values: &ArgMatches<'a>) -> Option<JudgingTask<'a>>
    ensures { option_map wanted_by result ≡ tally_in lab.now (found_of values.now) }
{
    let journal = values.get_str("journal")?;
    Some(tally_task(lab, journal, values.get_str("record")))
}

/// Returns the task of printing the tally of the `journal`, or of the journal and the record in the `folder` if one
/// is named, for the lab in the file `lab`.
fn tally_task<'a>(lab: &'a str, journal: &'a str, folder: Option<&'a str>) -> JudgingTask<'a>
    ensures { wanted_by result ≡ tally_wanted lab.now journal.now (seen folder.entry) }
{
    match folder {
        Some(folder) => JudgingTask::TallyRecorded(VerifyTask {
            lab,
            journal,
            folder,
        }),
        None => JudgingTask::Tally(TallyTask { lab, journal }),
    }
}
