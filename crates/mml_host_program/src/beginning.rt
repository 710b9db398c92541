//! A new class: from its first line of output to its last.
//!
//! A `Ready` has what a class needs: its lab, its open ports and its observers. A house is one run of a lab that
//! threads share, and its log is its result at the end. The host's state is what the threads that serve the class
//! have noted. A bell is rung when a session ends, and wakes the threads of the ports at the end of the class. A sink
//! is the destination of the journal's bytes, and is fresh if it has none yet. The observers, one for each seat of
//! the host, record the sessions, or do nothing. A seat serves one connection after another. Values are dropped by
//! calls of `drop` before a function returns, which keeps the proofs short.
ghost use Rattle.std.specs.Prelude.{◌≡◌, ◌<◌, ◌+◌, ◌-◌, ◌^◌, IfOk, OnOk, length};
ghost use Rattle.std.specs.Io.KnownBytes.{Appends};
ghost use Rattle.mml_journal.specs.Taken.{IsFresh};
ghost use Rattle.mml_host_program.specs.Telling.{EndsWell, ports_line, TellsClass};

use crate::class::{Ready, without_log};
use crate::fault::Fault;
use crate::socket_class::SocketClass;
use crate::system::System;
use mml_hosting::{Hosted, serve_host};
use mml_ids::Piece;
use mml_journal::Sink;
use mml_ports::{EndBell, HostState, Ports, TwoPorts, bell_of, open_ports};
use mml_program::{Fault as ProgramFault, write_pieces};
use mml_session::Observer;
use mml_window::Log;
use std::alloc::Global;
use std::io::Write;
use std::sync::Wait;

impl<C: Observer + Send + Drop> Ready<C> {
    /// Serves a new class with a new host state. Granted events go to the journal's `sink`, which must be fresh, and
    /// the host's lines to `writer`. Returns the reason if the class can't begin, or fails. If the class ended well but
    /// a session ran out of memory, returns `Memory` after the last line was written.
    pub(crate) fn start<R: System, S: Sink + Send + Drop, W: Write>(
        self,
        rt: &R,
        sink: S,
        writer: &mut W,
    ) -> Result<(), Fault>
        requires fresh { IsFresh (S.contents sink) }
        requires countable { S.failures sink < 2 ^ 64 - 1 }
        requires as_many { length self.observers.others.items + 1 ≡ self.lab.sessions }
    {
        let state = HostState::new(rt.alloc(), &self.lab);
        let served = without_log(self.begin(rt, sink, &state, writer));
        let told = told_memory(served, rt, &state);
        drop(state);
        told
    }

    /// Serves a new class in the host state `state`: writes the first line, serves the connections, and writes the last
    /// line. Granted events go to the journal's `sink`, which must be fresh. Returns the log whose events the last line
    /// counts, or the reason if the class can't begin, or fails. If a session ran out of memory, that is only noted in
    /// the state.
    fn begin<'a, R: System, S: Sink + Send + Drop, W: Write>(
        self,
        rt: &'a R,
        sink: S,
        state: &'a HostState,
        writer: &mut W,
    ) -> Result<Log<S>, Fault>
        requires fresh { IsFresh (S.contents sink) }
        requires countable { S.failures sink < 2 ^ 64 - 1 }
        requires as_many { length self.observers.others.items + 1 ≡ self.lab.sessions }
        ensures { IfOk result (TellsClass self.lab S.contents self.ports.port self.ports.desk
            (W.contents writer.old) (W.contents writer.new)) }
    {
        match announce(rt, state, &self.ports, writer) {
            Ok(bell) => {
                let ended = self.serve_to_the_end(rt, sink, state, &bell, writer);
                drop(bell);
                ended
            }
            Err(fault) => {
                drop(self);
                drop(sink);
                Err(fault)
            }
        }
    }

    /// Serves the connections with this host state and bell until the class is over, and writes the last line. Granted
    /// events go to the journal's `sink`, which must be fresh. Returns the log, or the reason if the class fails. If a
    /// session ran out of memory, that is only noted in the state.
    fn serve_to_the_end<'a, R: System, S: Sink + Send + Drop, W: Write>(
        self,
        rt: &'a R,
        sink: S,
        state: &'a HostState,
        bell: &EndBell<'a, R>,
        writer: &mut W,
    ) -> Result<Log<S>, Fault>
        requires fresh { IsFresh (S.contents sink) }
        requires countable { S.failures sink < 2 ^ 64 - 1 }
        requires as_many { length self.observers.others.items + 1 ≡ self.lab.sessions }
        ensures { IfOk result (EndsWell 0 self.lab S.contents (W.contents writer.old) (W.contents writer.new)) }
    {
        let alloc = rt.alloc();
        let Ready {
            lab,
            ports,
            observers,
        } = self;
        let TwoPorts {
            at_desk,
            elsewhere: at_port,
        } = open_ports(rt, alloc, state, ports);
        let served = serve_host::<SocketClass<'a, R, S, C>, _>(
            rt, alloc, lab, sink, observers, at_desk, at_port, bell, writer,
        );
        match served {
            Ok(house) => Ok(log_of(house)),
            Err(fault) => Err(Fault::from(fault)),
        }
    }
}

/// Writes the first line of a class that is served at these ports, and returns its bell, which counts ended sessions in
/// `state`. Returns an error if the write fails, memory runs out, or the system refuses the bell's descriptor.
fn announce<'a, R: AllocGlobal, W: Write>(
    rt: &'a R,
    state: &'a HostState,
    ports: &Ports,
    writer: &mut W,
) -> Result<EndBell<'a, R>, Fault>
    ensures { OnOk result (Appends (W.contents writer.old) (W.contents writer.new)
        (ports_line ports.now.port ports.now.desk)) }
{
    write_listening(rt.alloc(), ports.port, ports.desk, writer)?;
    Ok(bell_of(rt, state, ports)?)
}

/// Returns what the program reports for a class whose result is `served`. This is the error of the class, if it has
/// one. Otherwise it is `Memory` if the host's state notes that memory ran out, and else `Ok`.
pub(crate) fn told_memory<R: Wait>(
    served: Result<(), Fault>,
    rt: &R,
    state: &HostState,
) -> Result<(), Fault> {
    if served.is_ok() && state.lacked_memory(rt) {
        Err(Fault::Common(ProgramFault::Memory))
    } else {
        served
    }
}

/// Returns the log of a house whose class has ended, and drops what its seats have kept.
pub(crate) fn log_of<S: Drop, K: Drop, C: Drop>(house: Hosted<S, K, C>) -> Log<S>
    ensures { result ≡ house.log }
{
    let Hosted {
        log,
        at_desk,
        others,
    } = house;
    drop(at_desk);
    drop(others);
    log
}

/// Writes the first line of a class, which names its two ports: the students' (`port`) and the desk's (`desk`). Returns
/// an error if the write fails, or memory runs out.
pub fn write_listening<W: Write>(
    alloc: Global,
    port: u16,
    desk: u16,
    writer: &mut W,
) -> Result<(), ProgramFault>
    ensures { OnOk result
        (Appends (W.contents writer.old) (W.contents writer.new) (ports_line port desk)) }
{
    let pieces = [
        Piece::Text("listening on port "),
        Piece::Number(port as u64),
        Piece::Text(", desk on port "),
        Piece::Number(desk as u64),
        Piece::Text("\n"),
    ];
    write_pieces(alloc, &pieces, writer)
}
