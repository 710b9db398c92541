//! From the command line to the work that it asks for.
//!
//! A lab describes a class: its network, its participants and its limits. The journal of a run has a line for each
//! granted event, and a sink is the destination of its bytes. A sink is fresh if it has no bytes yet. The journal is
//! halted if a line couldn't be written to it. A house is one run of a lab that threads share. A hall has the state
//! of a run that answers a script. An audit checks whether a text is the journal of a run of a lab. A configuration
//! is a network with its registers. It is stable if no rule is enabled at any node. Values are dropped by calls of
//! `drop` before a function returns, which keeps the proofs short.
ghost use Rattle.std.specs.Prelude.{◌≡◌, ◌<◌, ◌≤◌, ◌-◌, ◌^◌, IfOk};
ghost use Rattle.mml_journal.specs.Taken.{IsFresh};
ghost use Rattle.mml_program.specs.Serving.{TellsServed};

use crate::built_in::BUILT_IN;
use crate::fault::{Fault, memory_if_lacked, memory_or};
use crate::files::{begin_journal_with, read_file, read_journal};
use crate::script_answering::{answer_script, write_audit, write_size};
use crate::words::{ScriptTask, ServeTask, Task, read_words};
use mml_ends::{Retrying, hold_streams};
use mml_files::{OpenJournal, has_small_stacks};
use mml_hall::Hall;
use mml_journal::{FileSink, NullSink, Sink};
use mml_lab::Lab;
use mml_lab_file::read_lab;
use mml_serving::{ServeFault, ServedHouse, Socket, serve_house_on, write_listening};
use mml_session::NoGate;
use std::alloc::Global;
use std::fs::File;
use std::io::Write;
use std::net::{Ipv4Addr, Net, SocketAddr, TcpListener, TcpStream};
use std::rt::{Env, Files};
use std::sync::Wait;
use std::thread::Threads;
use std::{env, io};

/// Prepares the process, and does what the command line asks for. Returns the error that ended the work, if one did.
pub fn run<
    R: Env
        + Files<File = File>
        + Net<Listener = TcpListener, Stream = TcpStream>
        + Threads
        + Wait
        + Sync
        + Input
        + Print
        + AllocGlobal,
>(rt: &R) -> Result<(), Fault> {
    let words = begin_program(rt)?;
    run_task(rt, read_words(rt.alloc(), words.as_slice())?)
}

/// Does what a task asks for. Returns the error that ended the work, if one did. The order of the steps protects an
/// existing journal. First the lab is read, then the journal's file is opened, and then the script is read or the port
/// opened. If one of these steps fails, the journal's file stays as it was. Only after these steps a new journal is
/// begun, and the earlier bytes are kept under another name.
pub fn run_task<
    R: Files<File = File>
        + Net<Listener = TcpListener, Stream = TcpStream>
        + Threads
        + Wait
        + Sync
        + Input
        + Print
        + AllocGlobal,
>(rt: &R, task: Task<'_>) -> Result<(), Fault> {
    match task {
        Task::BuiltIn => answer_input(rt),
        Task::Check { lab } => check_file(rt, lab),
        Task::Script(task) => script_file(rt, task),
        Task::Audit { lab, journal } => audit_file(rt, lab, journal),
        Task::Serve(task) => serve_file(rt, task),
    }
}

/// Reads the lab in a file, and prints the numbers of its nodes, links and students. Returns an error if the file can't
/// be read or doesn't describe a lab, the write fails, or memory runs out.
fn check_file<R: Files + Print + AllocGlobal>(rt: &R, path: &str) -> Result<(), Fault> {
    let lab = lab_of(rt, path)?;
    let written = write_size(rt.alloc(), &lab, &mut io::writer(rt));
    drop(lab);
    written
}

/// Answers the script on standard input over the built-in lab, and writes the replies to standard output. If the script
/// ended early, returns the reason, or `Memory` if a read or a write ran out of memory.
fn answer_input<R: Input + Print + AllocGlobal>(rt: &R) -> Result<(), Fault> {
    let alloc = rt.alloc();
    let lab = lab_in(alloc, BUILT_IN.as_bytes())?;
    let mut reader = Retrying::new(rt.reader());
    let mut writer = Retrying::new(io::writer(rt));
    match answer_script(alloc, lab, &mut reader, &mut writer, NullSink::new()) {
        Ok(hall) => {
            drop(hall);
            Ok(())
        }
        Err(fault) => Err(memory_if_lacked(fault, reader.lacked_memory || writer.lacked_memory)),
    }
}

/// Answers the script in a file over the lab in a file, prints the replies, and writes a journal if the task names one.
/// If the script can't be read, the journal's file stays as it was. Returns an error if the lab's file or the script's
/// can't be read, the lab is refused, or the journal's file can't be made. Also returns one if a line of the script is
/// bad, a reply can't be written, memory runs out, or the journal was halted.
fn script_file<R: Files<File = File> + Print + AllocGlobal>(
    rt: &R,
    task: ScriptTask<'_>,
) -> Result<(), Fault> {
    let lab = lab_of(rt, task.lab)?;
    match task.journal {
        Some(path) => match open_script(rt, &task, path) {
            Ok((script, sink)) => answer_lines(rt, lab, script, sink),
            Err(fault) => {
                drop(lab);
                Err(fault)
            }
        },
        None => match read_file(rt, task.script, Fault::ReadScript) {
            Ok(script) => answer_lines(rt, lab, script, NullSink::new()),
            Err(fault) => {
                drop(lab);
                Err(fault)
            }
        },
    }
}

/// Opens the journal's file at `path`, reads the script, and begins the journal. Returns the script and the journal's
/// sink, which is fresh. Returns an error if one of these steps fails. If the script can't be read, `begin_journal_with`
/// leaves the journal's file as it was.
fn open_script<R: Files<File = File> + AllocGlobal>(
    rt: &R,
    task: &ScriptTask<'_>,
    path: &str,
) -> Result<(Vec<u8>, FileSink), Fault>
    ensures { IfOk result (λ opened. opened.1 ≡ 0) }
{
    let journal = OpenJournal::open(rt, path, &[task.lab, task.script])?;
    let script = read_file(rt, task.script, Fault::ReadScript);
    begin_journal_with(rt, journal, script)
}

/// Answers the lines of a script over a lab, and writes the replies to standard output. The journal's lines go to
/// `sink`, which must be fresh. If the script ended early, returns the reason, or `Memory` if a write ran out of
/// memory. Returns `Journal` if the journal was halted.
fn answer_lines<R: Print + AllocGlobal, S: Sink + Drop>(
    rt: &R,
    lab: Lab,
    script: Vec<u8>,
    sink: S,
) -> Result<(), Fault>
    requires fresh { IsFresh (S.contents sink) }
    requires countable { S.failures sink < 2 ^ 64 - 1 }
{
    let mut lines = script.as_slice();
    let mut writer = Retrying::new(io::writer(rt));
    let answered = match answer_script(rt.alloc(), lab, &mut lines, &mut writer, sink) {
        Ok(hall) => fault_if_halted(hall),
        Err(fault) => Err(memory_if_lacked(fault, writer.lacked_memory)),
    };
    drop(script);
    answered
}

/// Drops the hall. Returns the error `Journal` if its journal was halted while a script was answered, and otherwise
/// `Ok`.
fn fault_if_halted<S: Sink + Drop>(hall: Hall<S>) -> Result<(), Fault> {
    let is_halted = hall.halted();
    drop(hall);
    if is_halted {
        Err(Fault::Journal)
    } else {
        Ok(())
    }
}

/// Audits the journal in a file over the lab in a file. Prints the number of its events, the number of the
/// configuration that they lead to, and whether that is stable. Returns an error if one of the files is refused, or the
/// write failed.
fn audit_file<R: Files + Print + AllocGlobal>(
    rt: &R,
    lab: &str,
    journal: &str,
) -> Result<(), Fault> {
    let lab = lab_of(rt, lab)?;
    let audited = match read_journal(rt, journal) {
        Ok(text) => {
            let written = write_audit(rt.alloc(), &lab, text.as_slice(), &mut io::writer(rt));
            drop(text);
            written
        }
        Err(fault) => Err(fault),
    };
    drop(lab);
    audited
}

/// Serves as many connections as the task says over the lab in a file, and writes a journal if the task names one. If
/// the port can't be used, `begin_journal_with` leaves the journal's file as it was. Returns an error if the task has
/// more connections than the lab has sessions, a file is refused, the port can't be used, or the server fails.
fn serve_file<
    R: Files<File = File>
        + Net<Listener = TcpListener, Stream = TcpStream>
        + Threads
        + Wait
        + Sync
        + Print
        + AllocGlobal,
>(rt: &R, task: ServeTask<'_>) -> Result<(), Fault> {
    let lab = lab_of(rt, task.lab)?;
    let port = task.port.get();
    let connections = task.connections.get();
    if connections > lab.sessions() {
        drop(lab);
        return Err(Fault::TooManyConnections);
    }
    match task.journal {
        Some(path) => match open_with_journal(rt, task.lab, path, port, connections) {
            Ok((service, sink)) => serve_listener(rt, lab, service, sink),
            Err(fault) => {
                drop(lab);
                Err(fault)
            }
        },
        None => match open_service(rt, port, connections) {
            Ok(service) => serve_listener(rt, lab, service, NullSink::new()),
            Err(fault) => {
                drop(lab);
                Err(fault)
            }
        },
    }
}

// A listener, its port, and the number of connections that are served there.
#[derive(Drop)]
struct Service {
    listener: TcpListener,
    port: u16,
    connections: u8,
}

/// Listens on a port, at which this many connections are to be served. Returns an error if the port can't be used, or
/// memory runs out.
fn open_service<R: Net<Listener = TcpListener, Stream = TcpStream>>(
    rt: &R,
    port: u16,
    connections: u8,
) -> Result<Service, Fault>
    ensures { IfOk result (λ service. service.connections ≡ connections) }
{
    Ok(Service {
        listener: listen(rt, port)?,
        port,
        connections,
    })
}

/// Opens the journal's file at `path`, then the port, and begins the journal. `lab` is the path of the lab file, which
/// can't be the journal's. Returns what is served at the port, and the journal's sink, which is fresh. Returns an error
/// if one of these steps fails. If the port can't be used, `begin_journal_with` leaves the journal's file as it was.
fn open_with_journal<
    R: Files<File = File> + Net<Listener = TcpListener, Stream = TcpStream> + AllocGlobal,
>(rt: &R, lab: &str, path: &str, port: u16, connections: u8) -> Result<(Service, FileSink), Fault>
    ensures served { IfOk result (λ opened. opened.0.connections ≡ connections) }
    ensures fresh { IfOk result (λ opened. opened.1 ≡ 0) }
{
    let journal = OpenJournal::open(rt, path, &[lab])?;
    let (listener, sink) = begin_journal_with(rt, journal, listen(rt, port))?;
    Ok((
        Service {
            listener,
            port,
            connections,
        },
        sink,
    ))
}

/// Prints the line with the port, serves the connections of the service, and prints the last line, which has the
/// numbers of events and of the configuration. The journal's lines go to `sink`, which must be fresh. The service must
/// have at least one connection, and at most as many as the lab has sessions. Returns the reason if the server failed,
/// or `Memory` instead if a write ran out of memory.
fn serve_listener<
    R: Net<Listener = TcpListener, Stream = TcpStream>
        + Threads
        + Wait
        + Sync
        + Print
        + AllocGlobal,
    S: Sink + Send + Drop,
>(rt: &R, lab: Lab, service: Service, sink: S) -> Result<(), Fault>
    requires some { 0 < service.connections }
    requires sessions { service.connections ≤ lab.sessions }
    requires fresh { IsFresh (S.contents sink) }
    requires countable { S.failures sink < 2 ^ 64 - 1 }
{
    let mut writer = Retrying::new(io::writer(rt));
    match serve_lines(rt, lab, service, sink, &mut writer) {
        Ok(house) => {
            // A call of `drop` keeps the proof short.
            drop(house);
            Ok(())
        }
        Err(fault) => Err(memory_if_lacked(Fault::from(fault), writer.lacked_memory)),
    }
}

/// Writes the line with the port to `writer`, serves the connections, and writes the last line, which has the numbers
/// of events and of the configuration. The journal's lines go to `sink`, which must be fresh. The service must have at
/// least one connection, and at most as many as the lab has sessions. Returns the result of the house, or the reason if
/// the server failed.
fn serve_lines<R: Threads + Wait + Sync + AllocGlobal, S: Sink + Send + Drop, W: Write>(
    rt: &R,
    lab: Lab,
    service: Service,
    sink: S,
    writer: &mut W,
) -> Result<ServedHouse<S, Socket, Socket>, ServeFault>
    requires some { 0 < service.connections }
    requires sessions { service.connections ≤ lab.sessions }
    requires fresh { IsFresh (S.contents sink) }
    requires countable { S.failures sink < 2 ^ 64 - 1 }
    ensures { IfOk result (TellsServed lab S.contents service.port service.connections
        (W.contents writer.old) (W.contents writer.new)) }
{
    let alloc = rt.alloc();
    let Service {
        listener,
        port,
        connections,
    } = service;
    write_listening(alloc, port, writer)?;
    // The arm `Ok` is a goal of its own, which the proof answers.
    match serve_house_on(rt, alloc, lab, listener, connections, sink, &NoGate, writer) {
        Ok(house) => Ok(house),
        Err(fault) => Err(fault),
    }
}

/// Listens on a port that can be reached only from this machine, and returns the listener. Returns an error if the port
/// can't be used, or memory runs out.
fn listen<R: Net<Listener = TcpListener, Stream = TcpStream>>(
    rt: &R,
    port: u16,
) -> Result<TcpListener, Fault> {
    match TcpListener::bind(rt, SocketAddr::from((Ipv4Addr::LOCALHOST, port))) {
        Ok(listener) => Ok(listener),
        Err(error) => Err(memory_or(&error, Fault::Listen)),
    }
}

/// Prepares the process, and returns the words of the command line. Opens the null device for each standard stream that
/// is closed, so that no other file gets its descriptor; returns `Write` if that fails. Returns `Memory` if the
/// system's limit on stacks is too small, or memory runs out. Returns `CommandLine` if a word isn't UTF-8.
pub fn begin_program<R: Env + Files<File = File> + AllocGlobal>(
    rt: &R,
) -> Result<Vec<String>, Fault> {
    hold_streams(rt).map_err(|error| memory_or(&error, Fault::Write))?;
    if has_small_stacks() {
        return Err(Fault::Memory);
    }
    command_words(rt)
}

/// Returns the words of the command line, with the program's name first. Returns `CommandLine` if a word isn't UTF-8,
/// and `Memory` if memory runs out.
pub fn command_words<R: Env + AllocGlobal>(rt: &R) -> Result<Vec<String>, Fault> {
    let words = env::args(rt).map_err(|error| memory_or(&error, Fault::CommandLine))?;
    Ok(words.collect(rt.alloc())?)
}

/// Reads a lab file, and returns its lab. Returns an error if the file can't be read or doesn't describe a lab, or
/// memory runs out.
pub fn lab_of<R: Files + AllocGlobal>(rt: &R, path: &str) -> Result<Lab, Fault> {
    let bytes = read_file(rt, path, Fault::ReadLab)?;
    lab_in(rt.alloc(), bytes.as_slice())
}

/// Returns the lab that the `bytes` of a lab file describe. Returns the error `Fault::Lab` with the reason if they
/// describe none, or `Fault::Memory` if memory runs out.
pub fn lab_in(alloc: Global, bytes: &[u8]) -> Result<Lab, Fault> {
    Ok(read_lab(alloc, bytes)?)
}
