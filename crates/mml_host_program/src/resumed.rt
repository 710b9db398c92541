//! A class that is resumed: from the end of its journal to its last line of output.
//!
//! A `Ready` has what a class needs apart from its journal: its lab, its open ports and its observers. A `Past` has
//! the old journal: its open file, what the audit found in it, and the watch of the file. A house is one run of a lab
//! that threads share, and its log is its result at the end. The host's state is what the threads that serve the
//! class have noted. A bell is rung when a session ends, and wakes the threads of the ports at the end of the class.
//! A sink is the destination of the journal's bytes, and a store returns the sink that appends to the old journal.
//! The observers, one for each seat of the host, record the sessions, or do nothing. A seat serves one connection
//! after another. Values are dropped by calls of `drop` before a function returns, which keeps the proofs short.
ghost use Rattle.std.specs.Prelude.{◌≡◌, ◌+◌, IfOk, None, length};
ghost use Rattle.mml_resuming.specs.Resuming.{IsAudited};
ghost use Rattle.mml_host_program.specs.Telling.{ports_line, TellsResumed};

use crate::beginning::{log_of, told_memory, write_listening};
use crate::class::{Past, Ready, without_log};
use crate::fault::Fault;
use crate::journal_watch::WatchedSink;
use crate::old_file::OldFile;
use crate::socket_class::SocketClass;
use crate::system::System;
use mml_journal::Sink;
use mml_ports::{EndBell, HostState, Ports, TwoPorts, bell_of, open_ports};
use mml_program::Fault as ProgramFault;
use mml_resuming::{AuditedJournal, ResumeFault, Store, resume_audited};
use mml_session::Observer;
use mml_window::Log;
use std::alloc::Global;
use std::fs::File;
use std::io::Write;
use std::rt::Files;

impl<C: Observer + Send + Drop> Ready<C> {
    /// Serves a class that is resumed from the journal `past`, with a new host state. The host's lines go to `writer`.
    /// Returns the reason if the class isn't resumed, or fails. If the class ended well but a session ran out of
    /// memory, returns `Memory` after the last line was written.
    pub(crate) fn resume<R: System + Files<File = File>, W: Write>(
        self,
        rt: &R,
        past: Past<'_>,
        writer: &mut W,
    ) -> Result<(), Fault>
        requires audited { IsAudited self.lab past.audited }
        requires as_many { length self.observers.others.items + 1 ≡ self.lab.sessions }
    {
        let state = HostState::new(rt.alloc(), &self.lab);
        let served = without_log(self.go_on(rt, &state, past, writer));
        let told = told_memory(served, rt, &state);
        drop(state);
        told
    }

    /// Serves a class that is resumed from the journal `past`, in the host state `state`: writes the first two lines,
    /// serves the connections, and writes the last line. Returns the log whose events the last line counts, or the
    /// reason if the class isn't resumed, or fails. If a session ran out of memory, that is only noted in the state.
    fn go_on<'a, R: System + Files<File = File>, W: Write>(
        self,
        rt: &'a R,
        state: &'a HostState,
        past: Past<'a>,
        writer: &mut W,
    ) -> Result<Log<WatchedSink<'a>>, Fault>
        requires audited { IsAudited self.lab past.audited }
        requires as_many { length self.observers.others.items + 1 ≡ self.lab.sessions }
        ensures { IfOk result (TellsResumed self.lab (λ _. None) past.entry.audited.bytes.now
            self.ports.port self.ports.desk (W.contents writer.old) (W.contents writer.new)) }
    {
        match opening_of(rt, state, &self.ports) {
            Ok(opening) => {
                let log = self.go_on_opened(rt, state, past, &opening, writer);
                drop(opening);
                log
            }
            Err(fault) => {
                drop(self);
                drop(past);
                Err(fault)
            }
        }
    }

    /// Does what `go_on` does, with the first line's text and the bell, which are ready in `opening`. Makes the store,
    /// which cuts the journal's file to its whole lines.
    fn go_on_opened<'a, R: System + Files<File = File>, W: Write>(
        self,
        rt: &'a R,
        state: &'a HostState,
        past: Past<'a>,
        opening: &Opening<'a, R>,
        writer: &mut W,
    ) -> Result<Log<WatchedSink<'a>>, Fault>
        requires audited { IsAudited self.lab past.audited }
        requires as_many { length self.observers.others.items + 1 ≡ self.lab.sessions }
        requires first { opening.now.first.items ≡ ports_line self.ports.port self.ports.desk }
        ensures { IfOk result (TellsResumed self.lab (λ _. None) past.entry.audited.bytes.now
            self.ports.port self.ports.desk (W.contents writer.old) (W.contents writer.new)) }
    {
        let Past {
            journal,
            audited,
            watch,
        } = past;
        let store = OldFile {
            rt,
            state,
            journal,
            bytes: audited.bytes,
            watch,
        };
        let first = opening.first.as_slice();
        self.go_on_after(rt, audited, store, first, state, &opening.bell, writer)
    }

    /// Serves a class that is resumed from the audited journal `past`, which `store` cuts to its whole lines. The line
    /// `first`, which names the ports, is written together with the next line, about the state that the journal leads
    /// to. Returns the log, or the reason if the class isn't resumed, or fails.
    fn go_on_after<'a, R: System, S: Sink + Send + Drop, T: Store<S> + Drop, W: Write>(
        self,
        rt: &'a R,
        past: AuditedJournal<'_>,
        store: T,
        first: &[u8],
        state: &'a HostState,
        bell: &EndBell<'a, R>,
        writer: &mut W,
    ) -> Result<Log<S>, Fault>
        requires audited { IsAudited self.lab past }
        requires as_many { length self.observers.others.items + 1 ≡ self.lab.sessions }
        requires first { first.now ≡ ports_line self.ports.port self.ports.desk }
        ensures { IfOk result (TellsResumed self.lab S.contents past.entry.bytes.now self.ports.port
            self.ports.desk (W.contents writer.old) (W.contents writer.new)) }
    {
        let alloc = rt.alloc();
        let Ready {
            lab,
            ports,
            observers,
        } = self;
        let TwoPorts {
            at_desk,
            elsewhere: at_port,
        } = open_ports(rt, alloc, state, ports);
        let resumed = resume_audited::<SocketClass<'a, R, S, C>, _, _>(
            rt, alloc, lab, past, store, first, observers, at_desk, at_port, bell, writer,
        );
        match resumed {
            Ok(house) => Ok(log_of(house)),
            Err(fault) => Err(told_as(fault, state.lacked_memory(rt))),
        }
    }
}

// What is made before a class is resumed: its first line, and the bell that wakes its ports.
#[derive(Drop)]
struct Opening<'a, R> {
    first: Vec<u8>,
    bell: EndBell<'a, R>,
}

/// Returns what a class needs before it is served at these ports: its first line of output, which names the ports, and
/// the bell that wakes the threads of the ports. Returns an error if memory runs out, or the system refuses the bell's
/// descriptor.
fn opening_of<'a, R: AllocGlobal>(
    rt: &'a R,
    state: &'a HostState,
    ports: &Ports,
) -> Result<Opening<'a, R>, Fault>
    ensures { IfOk result (λ opening. opening.first.items ≡ ports_line ports.now.port ports.now.desk) }
{
    let first = first_line(rt.alloc(), ports)?;
    let bell = bell_of(rt, state, ports)?;
    Ok(Opening { first, bell })
}

/// Returns the first line of a class's output, which names its two ports. Returns `Memory` if memory runs out.
fn first_line(alloc: Global, ports: &Ports) -> Result<Vec<u8>, ProgramFault>
    ensures { IfOk result (λ line. line.items ≡ ports_line ports.now.port ports.now.desk) }
{
    let mut line = Vec::new(alloc);
    write_listening(alloc, ports.port, ports.desk, &mut line)?;
    Ok(line)
}

/// Returns the host's error for `fault`, which says why a class couldn't be resumed or why it failed later. `Store` means
/// that the bytes after the journal's last whole line couldn't be removed. If memory had run out then (`lacked`), the
/// error is `Memory`.
fn told_as(fault: ResumeFault, lacked: bool) -> Fault {
    match fault {
        ResumeFault::Store if lacked => Fault::Common(ProgramFault::Memory),
        _ => Fault::from(fault),
    }
}
