//! The subcommand `host`, which serves a new class.
//!
//! A lab describes a class: its network, its participants and its limits. The journal of a class has a line for each
//! granted event. The record of a class has the lines of its connections and the replies. The watch of a journal's file
//! says whether another program has removed or changed the file, and an eye makes its checks. Values are dropped by
//! calls of `drop` before a function returns, which keeps the proofs short.
use crate::class::{Class, ClassJournal, serve_class};
use crate::fault::{Fault, of_journal};
use crate::journal_watch::{JournalWatch, Look};
use crate::limits::look_at_limits;
use crate::opening::open_ports_and_folder;
use crate::system::System;
use crate::words::{ClassTask, HostTask};
use mml_files::{BegunJournal, LabFile, OpenJournal};
use mml_lab::Lab;
use mml_ports::{Ports, listen_at};
use mml_program::{Fault as ProgramFault, lab_in, read_file};
use mml_recording::RecordFolder;
use std::fs::File;
use std::net::{Net, TcpListener, TcpStream};
use std::rt::Files;
use std::time::Clock;

/// Serves a new class, as the command line asks. `eye` checks the journal's file meanwhile. Returns the reason if the
/// class can't begin, or fails. The order of the steps protects an existing journal. First the lab is read and the
/// system's limits are checked. Then the journal's file, both ports and the record's folder are opened. If one of these
/// steps fails, the journal's file stays as it was. Only after them the journal is begun.
pub(crate) fn host<R: System + Files<File = File>, L: Look + Sync>(
    rt: &R,
    eye: &L,
    task: HostTask<'_>,
) -> Result<(), Fault> {
    let bytes = read_file(rt, task.class.lab, ProgramFault::ReadLab)?;
    host_lab(rt, eye, &task, bytes.as_slice())
}

/// Serves a new class of the lab whose file has these `bytes`, as `host` does. Returns the reason if the class can't
/// begin, or fails.
fn host_lab<R: System + Files<File = File>, L: Look + Sync>(
    rt: &R,
    eye: &L,
    task: &HostTask<'_>,
    bytes: &[u8],
) -> Result<(), Fault> {
    let lab = lab_in(rt.alloc(), bytes)?;
    match open_new(rt, task, bytes) {
        Ok(opened) => host_opened(rt, eye, lab, opened),
        Err(fault) => {
            drop(lab);
            Err(fault)
        }
    }
}

// What is opened for a new class: both ports, the begun journal with its path, and the record's folder, if they are
// named.
#[derive(Drop)]
struct Opened<'a> {
    journal: Option<(BegunJournal, &'a str)>,
    ports: Ports,
    folder: Option<RecordFolder>,
}

/// Serves a new class of this lab, for which everything in `opened` is open. Returns the reason if the class can't
/// begin, or fails.
fn host_opened<R: System + Files<File = File>, L: Look + Sync>(
    rt: &R,
    eye: &L,
    lab: Lab,
    opened: Opened<'_>,
) -> Result<(), Fault> {
    let Opened {
        journal,
        ports,
        folder,
    } = opened;
    match journal {
        None => serve_class(rt, Class::new(lab, ports, ClassJournal::None), folder, eye),
        Some((BegunJournal::Other(file), _)) => {
            serve_class(
                rt,
                Class::new(lab, ports, ClassJournal::Other(file)),
                folder,
                eye,
            )
        }
        Some((BegunJournal::Plain(file), path)) => {
            host_watched(rt, eye, lab, ports, folder, file, path)
        }
    }
}

/// Serves a new class of this lab, whose journal is the plain `file` at `path`, and lets `eye` check this file
/// meanwhile. Returns the reason if the system can't identify the file, or the class can't begin, or fails.
fn host_watched<R: System + Files<File = File>, L: Look + Sync>(
    rt: &R,
    eye: &L,
    lab: Lab,
    ports: Ports,
    folder: Option<RecordFolder>,
    file: File,
    path: &str,
) -> Result<(), Fault> {
    match JournalWatch::new(path, &file) {
        Ok(watch) => {
            let class = Class::new(lab, ports, ClassJournal::Plain(file, &watch));
            let served = serve_class(rt, class, folder, eye);
            drop(watch);
            served
        }
        Err(fault) => {
            drop(lab);
            drop(ports);
            drop(folder);
            drop(file);
            Err(fault)
        }
    }
}

/// Checks the system's limits, and opens what a new class needs: its ports, and its journal and the folder of its
/// record, if they are named. Without a journal there is no record. `lab` has the bytes of the lab's file. Returns an
/// error if one of these steps fails.
fn open_new<'a, R: System + Files<File = File>>(
    rt: &R,
    task: &HostTask<'a>,
    lab: &[u8],
) -> Result<Opened<'a>, Fault> {
    look_at_limits(rt, rt.alloc())?;
    match task.journal {
        Some(path) => open_with_journal(rt, &task.class, path, lab),
        None => Ok(Opened {
            journal: None,
            ports: listen_at(rt, task.class.port, task.class.desk)?,
            folder: None,
        }),
    }
}

/// Opens what a new class with a journal needs: the journal's file at `path`, then both ports, then the record's folder
/// if one is named. Returns all of them. Begins the journal only after these steps. If its file is a plain one, this
/// writes a copy of the lab's file, whose bytes are `lab`, beside it. If the plain file has bytes, it is then kept under
/// another name, and a new, empty file is made at `path`. Returns the first error. If the file, the ports or the folder
/// can't be opened, the journal's file stays as it was. If the journal can't be begun, removes the new record, and puts
/// back what had its path before.
fn open_with_journal<
    'a,
    R: Files<File = File> + Net<Listener = TcpListener, Stream = TcpStream> + Clock + AllocGlobal,
>(rt: &R, class: &ClassTask<'_>, path: &'a str, lab: &[u8]) -> Result<Opened<'a>, Fault> {
    let journal = OpenJournal::open(rt, path, &[class.lab]).map_err(of_journal)?;
    match open_ports_and_folder(rt, class, lab, None) {
        Ok((ports, folder)) => {
            let lab = LabFile {
                path: class.lab,
                bytes: lab,
            };
            match journal.begin_with_lab(rt, lab) {
                Ok(journal) => Ok(Opened {
                    journal: Some((journal, path)),
                    ports,
                    folder,
                }),
                Err(fault) => {
                    if let Some(folder) = folder {
                        folder.take_back(rt);
                    }
                    drop(ports);
                    Err(of_journal(fault))
                }
            }
        }
        Err(fault) => {
            journal.close_unchanged(rt);
            Err(fault)
        }
    }
}
