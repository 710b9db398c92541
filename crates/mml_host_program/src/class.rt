//! Serving a class whose ports are open, with its journal and its record.
//!
//! The journal of a class has a line for each granted event. A sink is the destination of the journal's bytes. An
//! audit checks whether a text is the journal of a run of a lab. The record of a class has the lines of its
//! connections and the replies. The watch of a journal's file says whether another program has removed or changed the
//! file, and an eye makes its checks. The observers, one for each seat of the host, record the sessions, or do
//! nothing. A seat serves one connection after another. In contracts, a `Class` is the number of its lab's sessions.
//! Each function that serves a class returns the reason if the class can't begin or be resumed, or fails. Values are
//! dropped by calls of `drop` before a function returns, which keeps the proofs short.
ghost use Rattle.std.specs.Prelude.{◌≡◌, ◌+◌, IsOk, OnOk, length};
ghost use Rattle.std.specs.Thread.{IsSync, IsSend};
ghost use Rattle.mml_host_program.specs.Classes.{IsAuditedIn};

use crate::fault::{Fault, of_record};
use crate::journal_watch::{JournalWatch, Look, WatchedSink};
use crate::system::System;
use mml_ends::Retrying;
use mml_files::OldJournal;
use mml_hosting::{Observers, no_observers};
use mml_journal::{FileSink, NullSink};
use mml_lab::Lab;
use mml_ports::Ports;
use mml_program::memory_if_lacked;
use mml_recording::{RecordFolder, RecordState, Seats, end_syncing, sync_until_done};
use mml_resuming::AuditedJournal;
use mml_session::Observer;
use mml_window::Log;
use std::fs::File;
use std::io::Write;
use std::marker::Model;
use std::rt::Files;
use std::{io, thread};

/// The journal of an earlier part of the class: its open file, what the audit found in it, and its watch.
#[derive(Drop)]
pub(crate) struct Past<'a> {
    pub journal: OldJournal<'a>,
    pub audited: AuditedJournal<'a>,
    pub watch: &'a JournalWatch<'a>,
}

/// The journal of a class, to which the lines of granted events are written.
#[derive(Drop)]
pub(crate) enum ClassJournal<'a> {
    /// No journal.
    None,
    /// A plain file, begun anew, and its watch.
    Plain(File, &'a JournalWatch<'a>),
    /// A file of another kind, such as a pipe, which can be neither synced nor watched.
    Other(File),
    /// The journal from which a class is resumed.
    Old(Past<'a>),
}

impl<'a> ClassJournal<'a> {
    /// Returns the watch of the journal if it is a plain file, and otherwise `None`.
    fn watch(&self) -> Option<&'a JournalWatch<'a>> {
        match self {
            ClassJournal::None | ClassJournal::Other(_) => None,
            ClassJournal::Plain(_, watch) => Some(*watch),
            ClassJournal::Old(past) => Some(past.watch),
        }
    }
}

/// A class that is ready to be served: its lab, its ports and its journal. A journal from which the class is resumed
/// has passed the audit for this lab. Contracts see only the number of sessions that the lab allows.
#[derive(Drop)]
pub(crate) struct Class<'a> {
    lab: Lab,
    ports: Ports,
    journal: ClassJournal<'a>,
}

impl<'a> Model for Class<'a> {
    ghost use Rattle.std.specs.Prelude.{ℕ};
    ghost use Rattle.mml_host_program.specs.Classes.{IsAuditedIn};

    ghost Value = { ℕ };

    ghost view = { λ c. c.lab.sessions };

    ghost invariant = { λ c. IsAuditedIn c.lab c.journal };
}

impl<'a> Class<'a> {
    /// Returns the class with this lab, these ports and this journal. If the class is resumed, the journal must have
    /// passed the audit for this lab.
    pub(crate) fn new(lab: Lab, ports: Ports, journal: ClassJournal<'a>) -> Class<'a>
        requires audited { IsAuditedIn lab journal }
        ensures { result ≡ lab.sessions }
    {
        Class {
            lab,
            ports,
            journal,
        }
    }

    /// Returns the lab of the class.
    fn lab(&self) -> &Lab
        ensures { result.now.sessions ≡ self.now }
    {
        &self.lab
    }

    /// Returns the watch of the class's journal if that is a plain file, and otherwise `None`.
    fn watch(&self) -> Option<&'a JournalWatch<'a>> {
        self.journal.watch()
    }
}

/// What a class needs to be served at its ports, apart from its journal.
#[derive(Drop)]
pub(crate) struct Ready<C: Drop> {
    pub lab: Lab,
    pub ports: Ports,
    pub observers: Observers<C>,
}

/// Serves a class until it is over. Records it in `folder`, if there is one. If the class's journal is a plain file,
/// lets `eye` check that file meanwhile. Returns the reason if the class can't begin or be resumed, or fails. Also
/// returns an error if something wasn't recorded, or another program removed or changed the journal's file.
pub(crate) fn serve_class<R: System + Files<File = File>, L: Look + Sync>(
    rt: &R,
    class: Class<'_>,
    folder: Option<RecordFolder>,
    eye: &L,
) -> Result<(), Fault> {
    match class.watch() {
        Some(watch) => serve_watched(rt, class, folder, watch, eye),
        None => serve_recorded(rt, class, folder),
    }
}

/// Serves a class, while another thread lets `eye` check the journal's file. `watch` is the watch of this file. If no
/// thread can be started, checks the file once, at the end. Returns the error of the class. If it has none, returns a
/// journal fault if the file was removed or changed.
fn serve_watched<R: System + Files<File = File>, L: Look + Sync>(
    rt: &R,
    class: Class<'_>,
    folder: Option<RecordFolder>,
    watch: &JournalWatch<'_>,
    eye: &L,
) -> Result<(), Fault> {
    // The closure states what its proof needs: that threads may share `R` and `L`.
    thread::scope(
        thread::scope_env(),
        rt,
        |scope| -> Result<(), Fault>
            requires { IsSync R.row × IsSync L.row }
        {
            let is_watched = scope.spawn(move || watch.look_until_over(rt, eye)).is_ok();
            let served = serve_recorded(rt, class, folder);
            watch.note_over(rt);
            if !is_watched {
                let _is_lost = eye.look(watch);
            }
            served
        },
    )?;
    watch.end()
}

/// Serves a class, and records it in this folder if there is one.
fn serve_recorded<R: System + Files<File = File>>(
    rt: &R,
    class: Class<'_>,
    folder: Option<RecordFolder>,
) -> Result<(), Fault> {
    match folder {
        Some(folder) => serve_in_folder(rt, class, folder),
        None => serve_unrecorded(rt, class),
    }
}

/// Serves a class without recording it, with observers that do nothing.
fn serve_unrecorded<R: System + Files<File = File>>(rt: &R, class: Class<'_>) -> Result<(), Fault> {
    match no_observers(rt.alloc(), class.lab()) {
        Ok(observers) => serve_ports(rt, class, observers),
        Err(memory) => {
            drop(class);
            Err(Fault::from(memory))
        }
    }
}

/// Serves a class, and records it in this folder. Returns the error of the class. If it has none, returns `Unrecorded`
/// if something couldn't be recorded.
fn serve_in_folder<R: System + Files<File = File>>(
    rt: &R,
    class: Class<'_>,
    folder: RecordFolder,
) -> Result<(), Fault> {
    match RecordState::new(rt.alloc(), class.lab()) {
        Ok(state) => {
            let told = told_whole(serve_seats(rt, class, folder, &state), &state);
            drop(state);
            told
        }
        Err(fault) => {
            drop(class);
            drop(folder);
            Err(of_record(fault))
        }
    }
}

/// Opens the file of each seat in the folder, and serves a class that is recorded there. `state` is the record's:
/// failed writes are noted there. Returns an error if a file can't be opened, or the class fails.
fn serve_seats<R: System + Files<File = File>>(
    rt: &R,
    class: Class<'_>,
    folder: RecordFolder,
    state: &RecordState,
) -> Result<(), Fault> {
    match folder.open_seats(rt, class.lab(), state) {
        Ok(Seats { recorders, files }) => {
            let served = serve_synced(rt, class, recorders, files.as_slice(), state);
            drop(files);
            drop(folder);
            served
        }
        Err(fault) => {
            drop(class);
            drop(folder);
            Err(of_record(fault))
        }
    }
}

/// Serves a class, while another thread syncs the files of its record. `observers` write these files, and `state` is
/// the record's. If no thread can be started, syncs the files once, at the end. Returns the error of the class.
fn serve_synced<R: System + Files<File = File>, C: Observer + Send + Drop>(
    rt: &R,
    class: Class<'_>,
    observers: Observers<C>,
    files: &[File],
    state: &RecordState,
) -> Result<(), Fault>
    requires as_many { length observers.others.items + 1 ≡ class }
{
    // The closure states what its proof needs: that threads may share `R`, that a thread may be given a `C`, and how
    // many observers there are.
    thread::scope(
        thread::scope_env(),
        rt,
        |scope| -> Result<(), Fault>
            requires { IsSync R.row × IsSend C.row × (length observers.others.items + 1 ≡ class) }
        {
            let is_synced = scope
                .spawn(move || sync_until_done(rt, state, files))
                .is_ok();
            let served = serve_ports(rt, class, observers);
            end_syncing(rt, state, files, is_synced);
            served
        },
    )
}

/// Returns what the program reports for a class whose result is `served`. This is the error of the class, if it has
/// one. Otherwise it is `Unrecorded` if a write to the record or a sync of its files has failed, and else `Ok`. `state`
/// is the record's.
fn told_whole(served: Result<(), Fault>, state: &RecordState) -> Result<(), Fault> {
    if served.is_ok() && state.has_failed() {
        Err(Fault::Unrecorded)
    } else {
        served
    }
}

/// Serves a class until it is over, and prints the host's lines: the ports, the state after an earlier journal if there
/// is one, and the end. If a write ran out of memory, returns `Memory` instead of any other error.
fn serve_ports<R: System + Files<File = File>, C: Observer + Send + Drop>(
    rt: &R,
    class: Class<'_>,
    observers: Observers<C>,
) -> Result<(), Fault>
    requires as_many { length observers.others.items + 1 ≡ class }
{
    let mut writer = Retrying::new(io::writer(rt));
    match serve_journaled(rt, class, observers, &mut writer) {
        Ok(()) => Ok(()),
        Err(fault) => Err(memory_if_lacked(fault, writer.lacked_memory)),
    }
}

/// Serves a class at its ports, with the sink for its kind of journal. There are four kinds: no journal, a plain file
/// that is synced and watched, a file that can't be synced, and the journal from which the class is resumed. The host's
/// lines go to `writer`.
fn serve_journaled<R: System + Files<File = File>, C: Observer + Send + Drop, W: Write>(
    rt: &R,
    class: Class<'_>,
    observers: Observers<C>,
    writer: &mut W,
) -> Result<(), Fault>
    requires as_many { length observers.others.items + 1 ≡ class }
{
    let Class {
        lab,
        ports,
        journal,
    } = class;
    let ready = Ready {
        lab,
        ports,
        observers,
    };
    match journal {
        ClassJournal::None => ready.start(rt, NullSink::new(), writer),
        ClassJournal::Plain(file, watch) => {
            ready.start(rt, WatchedSink::new(file, 0, watch), writer)
        }
        ClassJournal::Other(file) => ready.start(rt, FileSink::new(file), writer),
        ClassJournal::Old(past) => ready.resume(rt, past, writer),
    }
}

/// Drops the log of a class that has ended well. Returns `Ok`, or the error if the class failed.
pub(crate) fn without_log<S: Drop>(ended: Result<Log<S>, Fault>) -> Result<(), Fault>
    ensures { OnOk result (IsOk ended) }
{
    match ended {
        Ok(log) => {
            drop(log);
            Ok(())
        }
        Err(fault) => Err(fault),
    }
}
