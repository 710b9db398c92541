//! A server that serves a fixed number of connections: from the opening of its house (one run of a lab) to its last
//! line.
//!
//! A house is one run of a lab that threads share: its list of granted events, the board after them, and their journal.
//! A window is one session's view of the published events and board. The type `H` is the name of a house, and only
//! contracts use it. A sink is the destination of the journal's bytes. The place of an event is its number in the list
//! of events, from 1. The log of a house is its result, with its events, board and sink. The desk of a house has its
//! events, board and journal under a lock.
//!
//! Values are dropped by calls of `drop` before a function returns, which keeps the proofs short.
ghost use Rattle.std.specs.Prelude.{◌≡◌, ◌<◌, ◌≤◌, ◌+◌, ◌-◌, ◌^◌, ◌++◌, Err, None, true, false, length, IfOk, IfErr, OnOk};
ghost use Rattle.std.specs.List.{list_all};
ghost use Rattle.std.specs.Io.KnownBytes.{Appends};
ghost use Rattle.mml_journal.specs.Taken.{IsFresh};
ghost use Rattle.mml_window.specs.Houses.{house_of};
ghost use Rattle.mml_board.specs.Lists.{world_in};
ghost use Rattle.mml_window.specs.Logs.{IsLog};
ghost use Rattle.mml_serving.specs.Closings.{done_line};
ghost use Rattle.mml_serving.specs.Endings.{EndsBadly, EndsEarly, EndsWithout, ServesBadly, ServesWithMemory};
ghost use Rattle.mml_serving.specs.Serving.{ServesHouse, had_memory};

use crate::announcing::write_last;
use crate::arrivals::Arrivals;
use crate::connection::{EndedSession, all_had_memory};
use crate::seating::{SeatingFault, serve_all};
use crate::server_types::{ServedHouseOf, ServerOf, ServerTypes};
use crate::socket::Socket;
use mml_journal::Sink;
use mml_lab::Lab;
use mml_session::{Gate, Setting};
use mml_window::{Blank, Brand, Desk, House, HouseFault, Log, Window, open_house};
use std::alloc::Global;
use std::io::Write;
use std::net::TcpListener;
use std::sync::Wait;
use std::thread::Threads;

/// The result of a house (one run of a lab) whose sessions have all ended.
#[derive(Drop)]
pub struct ServedHouse<S: Drop, R: Drop, W: Drop> {
    pub log: Log<S>,
    /// The sessions in the order in which the connections came.
    pub sessions: Vec<EndedSession<R, W>>,
}

/// Why a server failed.
#[derive(Clone, Copy, PartialEq, Eq)]
pub enum ServeFault {
    /// Memory ran out, or no thread could be made.
    Memory,
    /// There was no reader's slot for a window. This error doesn't happen: the slots are reserved when a house is
    /// started.
    Place,
    /// A connection couldn't be accepted.
    Accept,
    /// A check at the end failed: the places in the windows' grants aren't exactly those of the events, each once.
    Astray,
    /// The journal is halted.
    Halted,
    /// The first or the last line of the output couldn't be written.
    Write,
}

/// Serves the next `connections` connections of a listener in a new house of the lab, whose journal goes to `sink`.
/// There must be at least one connection, at most one for each session of the lab, and `sink` must be empty. `gate` can
/// make sessions wait, for tests. After the sessions, writes the last line to `writer`. Returns `Ok(())`, or the
/// reason why the server failed, with the same reasons as `serve_house_on`. That function also returns the result of
/// the house.
pub fn serve_on<Rt: Threads + Wait + Sync, S: Sink + Send + Drop, G: Gate + Sync, W: Write>(
    rt: &Rt,
    alloc: Global,
    lab: Lab,
    listener: TcpListener,
    connections: u8,
    sink: S,
    gate: &G,
    writer: &mut W,
) -> Result<(), ServeFault>
    requires some { 0 < connections }
    requires sessions { connections ≤ lab.sessions }
    requires fresh { IsFresh (S.contents sink) }
    requires countable { S.failures sink < 2 ^ 64 - 1 }
    ensures served { OnOk result (ServesWithMemory lab S.contents connections
        (W.contents writer.old) (W.contents writer.new)) }
    ensures badly { IfErr result (ServesBadly lab S.contents connections
        (W.contents writer.old) (W.contents writer.new)) }
{
    match serve_house_on(rt, alloc, lab, listener, connections, sink, gate, writer) {
        Ok(house) => {
            drop(house);
            Ok(())
        }
        Err(fault) => Err(fault),
    }
}

/// Serves the next `connections` connections of a listener in a new house of the lab, whose journal goes to `sink`.
/// There must be at least one connection, at most one for each session of the lab, and `sink` must be empty. After the
/// sessions, writes the last line to `writer`: the number of events, and the configuration that they led to. `gate` can
/// pause the sessions, for tests. Returns the result of the house, or why the server failed. If accepting fails, the
/// connections that had come are still served to their ends. If memory ran out in a session or a socket, returns
/// `Memory`, even though the last line was written. The contract can't speak of a socket's bytes; see `serve_arrivals`.
pub fn serve_house_on<Rt: Threads + Wait + Sync, S: Sink + Send + Drop, G: Gate + Sync, W: Write>(
    rt: &Rt,
    alloc: Global,
    lab: Lab,
    listener: TcpListener,
    connections: u8,
    sink: S,
    gate: &G,
    writer: &mut W,
) -> Result<ServedHouse<S, Socket, Socket>, ServeFault>
    requires some { 0 < connections }
    requires sessions { connections ≤ lab.sessions }
    requires fresh { IsFresh (S.contents sink) }
    requires countable { S.failures sink < 2 ^ 64 - 1 }
    ensures served { IfOk result (λ house. ServesHouse lab S.contents (λ _. None) (λ _. None) None
        connections house.sessions.items house.log) }
    ensures unhalted { IfOk result (λ house. house.log.halted ≡ false) }
    ensures last { IfOk result (λ house. Appends (W.contents writer.old) (W.contents writer.new)
        (done_line (length house.log.events) (world_in lab house.log.events).number)) }
    ensures had_memory { IfOk result (λ house. list_all had_memory house.sessions.items ≡ true) }
    ensures badly { IfErr result (ServesBadly lab S.contents connections
        (W.contents writer.old) (W.contents writer.new)) }
{
    let served = serve_arrivals::<ServerOf<'_, Rt, S, Socket, Socket, G>, _, _>(
        rt,
        alloc,
        lab,
        listener,
        connections,
        sink,
        gate,
        writer,
    );
    let house = match served {
        Ok(house) => house,
        Err(fault) => return Err(fault),
    };
    if all_had_memory(&house.sessions) {
        Ok(house)
    } else {
        drop(house);
        Err(ServeFault::Memory)
    }
}

/// Serves the first `connections` connections of `arrivals`, each in a thread and through a window of its own. There
/// may be at most one for each session of the lab. Opens a house for them, whose journal goes to `sink`, which must be
/// empty. Ends the house when all sessions have ended, and then writes the last line to `writer`. `gate` can pause the
/// sessions, for tests. Returns the result of the house, or why the server failed. If nothing fails, the house has one
/// legal list of events, and each reply is that of the rules after a beginning of this list. The places that the
/// replies name are those of the list's events, each once.
pub fn serve_arrivals<Y: ServerTypes, A: Arrivals<Y::Reader, Y::Writer> + Drop, O: Write>(
    rt: &Y::Runtime,
    alloc: Global,
    lab: Lab,
    arrivals: A,
    connections: u8,
    sink: Y::Sink,
    gate: &Y::Gate,
    writer: &mut O,
) -> Result<ServedHouseOf<Y>, ServeFault>
    requires sessions { connections ≤ lab.sessions }
    requires fresh { IsFresh (Y.Sink.contents sink) }
    requires countable { Y.Sink.failures sink < 2 ^ 64 - 1 }
    ensures served { IfOk result (λ house. ServesHouse lab Y.Sink.contents Y.Reader.remaining Y.Writer.contents
        (A.to_come arrivals) connections house.sessions.items house.log) }
    ensures unhalted { IfOk result (λ house. house.log.halted ≡ false) }
    ensures last { IfOk result (λ house. Appends (O.contents writer.old) (O.contents writer.new)
        (done_line (length house.log.events) (world_in lab house.log.events).number)) }
    ensures badly { IfErr result (EndsBadly lab Y.Sink.contents Y.Reader.remaining Y.Writer.contents
        (A.to_come arrivals) connections (O.contents writer.old) (O.contents writer.new)) }
{
    let blank = match open_house(rt, alloc, lab, sink) {
        Ok(blank) => blank,
        Err(HouseFault::Memory) => {
            drop(arrivals);
            return Err(ServeFault::Memory);
        }
        Err(HouseFault::Place) => {
            drop(arrivals);
            return Err(ServeFault::Place);
        }
    };
    let served = serve_in_house::<Y, Brand, A>(rt, alloc, blank, arrivals, connections, gate);
    let house = match served {
        Ok(house) => house,
        Err(fault) => return Err(fault),
    };
    match write_last(alloc, &house.log, writer) {
        Ok(()) => Ok(house),
        Err(fault) => {
            drop(house);
            Err(fault)
        }
    }
}

/// Serves the next `connections` connections of `arrivals` in the new house `blank`, at most one for each session of
/// its lab. Then ends the house with all its windows, also those that no connection used. `gate` can pause the
/// sessions, for tests. Returns the house's log and the ended sessions, or why the server failed.
fn serve_in_house<Y: ServerTypes, H: House + Send + Sync, A: Arrivals<Y::Reader, Y::Writer> + Drop>(
    rt: &Y::Runtime,
    alloc: Global,
    blank: Blank<Y::Sink>,
    arrivals: A,
    connections: u8,
    gate: &Y::Gate,
) -> Result<ServedHouseOf<Y>, ServeFault>
    requires named { blank ≡ house_of H.name H.lab }
    requires few { connections ≤ H.lab.sessions }
    ensures served { IfOk result (λ house. ServesHouse H.lab Y.Sink.contents Y.Reader.remaining Y.Writer.contents
        (A.to_come arrivals) connections house.sessions.items house.log) }
    ensures early { IfErr result
        (EndsEarly H.lab Y.Sink.contents Y.Reader.remaining Y.Writer.contents (A.to_come arrivals) connections) }
{
    let Ok((desk, mut windows)) = blank.start::<H>(alloc) else {
        drop(arrivals);
        return Err(ServeFault::Memory);
    };
    let Ok(unused) = windows.split_off(usize::from(connections)) else {
        let fault = end_for(ServeFault::Memory, rt, alloc, desk);
        drop(windows);
        drop(arrivals);
        return Err(fault);
    };
    let setting = Setting {
        rt,
        alloc,
        desk: &desk,
    };
    match serve_all::<Y, H, A>(&setting, windows, arrivals, connections, gate) {
        Ok((windows, sessions)) => match end_house(rt, alloc, desk, windows, unused) {
            Ok(log) => Ok(ServedHouse { log, sessions }),
            Err(fault) => {
                drop(sessions);
                Err(fault)
            }
        },
        Err(SeatingFault::Memory) => {
            drop(unused);
            Err(end_for(ServeFault::Memory, rt, alloc, desk))
        }
        Err(SeatingFault::Accept) => {
            drop(unused);
            Err(end_for(ServeFault::Accept, rt, alloc, desk))
        }
    }
}

/// Ends a house that has failed, since a desk can't just be dropped, and returns `fault`. Ignores the result of ending
/// it, so that no other fault is reported.
pub fn end_for<Rt: Wait, S: Sink + Drop, H: House, F>(
    fault: F,
    rt: &Rt,
    alloc: Global,
    desk: Desk<S, H>,
) -> F
    ensures { result ≡ fault }
{
    let _ = desk.finish(rt, Vec::new(alloc));
    fault
}

/// Ends a house. `windows` are those through which connections were served, and `unused` the others. Returns the
/// house's log. Returns `Memory` if memory runs out, or `Astray` if the windows' places aren't those of the events,
/// each once.
fn end_house<Rt: Wait, S: Sink + Drop, H: House>(
    rt: &Rt,
    alloc: Global,
    desk: Desk<S, H>,
    windows: Vec<Window<H>>,
    unused: Vec<Window<H>>,
) -> Result<Log<S>, ServeFault>
    requires few { length windows.items + length unused.items ≤ H.lab.sessions }
    ensures log { IfOk result (IsLog H.lab S.contents (windows.items ++ unused.items)) }
    ensures without { IfErr result (EndsWithout H.lab S.contents (windows.items ++ unused.items)) }
{
    let mut windows = windows;
    let mut unused = unused;
    let is_short = windows.append(&mut unused).is_err();
    drop(unused);
    if is_short {
        drop(windows);
        return Err(end_for(ServeFault::Memory, rt, alloc, desk));
    }
    match desk.finish(rt, windows) {
        Ok(log) => Ok(log),
        Err(_) => Err(ServeFault::Astray),
    }
}
