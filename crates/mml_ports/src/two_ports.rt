//! The two ports of a class, on which the host listens before the journal is begun.
//!
//! The host has two ports: the desk, which is the teacher's, and the students' port. The bell is rung when a session
//! ends.
use crate::port::{EndBell, Port};
use crate::state::HostState;
use libc::net::listen;
use std::alloc::Global;
use std::net::{Ipv4Addr, Net, SocketAddr, TcpListener, TcpStream};
use std::os::fd::AsRawFd;
use std::sync::{Mutex, Wait};
use std::time::{Clock, Duration};
use std::{io, thread};

// How many connections may wait at a port to be accepted; the system may allow fewer. The library's default of 128 is
// used up by a flood of connections within a tenth of a second.
const BACKLOG: i32 = 4096;

// How many times at most it is checked whether a first connection has come to the desk.
const FIRST_CHECKS: u32 = 1000;

// How many milliseconds pass between two of these checks.
const CHECK_INTERVAL: u64 = 1;

/// Why the host can't listen on a port.
#[derive(Clone, Copy, PartialEq, Eq)]
pub enum ListenFault {
    /// The system refuses the port, or another program listens there.
    Refused,
    /// Memory ran out.
    Memory,
}

impl From<io::Error> for ListenFault {
    // Turns the system's error into a fault: `Memory` if memory ran out, and otherwise `Refused`.
    fn from(error: io::Error) -> ListenFault {
        match error.kind() {
            io::ErrorKind::OutOfMemory => ListenFault::Memory,
            _ => ListenFault::Refused,
        }
    }
}

/// Two ports on which the host listens, with their numbers.
#[derive(Drop)]
pub struct Ports {
    pub listener: TcpListener,
    pub desk_listener: TcpListener,
    /// The first connection to the desk, if one came before the host listened on the students' port.
    pub first: Option<TcpStream>,
    pub port: u16,
    pub desk: u16,
}

/// Listens on the desk's port (number `desk`) and then on the students' (number `port`), for connections of this
/// machine only. If a number is 0, the system chooses the port. If the desk's number isn't 0, waits for at most a
/// second for a first connection there. So the teacher's program is connected before a student can see that the class
/// begins. Returns an error if the host can't listen on one of the two ports.
pub fn listen_at<R: Clock + Net<Listener = TcpListener, Stream = TcpStream>>(
    rt: &R,
    port: u16,
    desk: u16,
) -> Result<Ports, ListenFault> {
    let desk_listener = listen_on(rt, desk)?;
    let first = if desk == 0 {
        None
    } else {
        first_within(rt, &desk_listener)?
    };
    let listener = listen_on(rt, port)?;
    let port = listener.local_addr()?.port();
    let desk = desk_listener.local_addr()?.port();
    Ok(Ports {
        listener,
        desk_listener,
        first,
        port,
        desk,
    })
}

/// Waits for at most a second for the first connection to a listener, and returns it. Returns `None` if no connection
/// has come, or it couldn't be accepted. Leaves the listener non-blocking. Returns an error if the listener can't be
/// made non-blocking.
fn first_within<R: Clock>(rt: &R, listener: &TcpListener) -> io::Result<Option<TcpStream>> {
    listener.set_nonblocking(true)?;
    for _ in 0..FIRST_CHECKS {
        match listener.accept() {
            Ok((stream, _)) => return Ok(Some(stream)),
            Err(error) if is_transient(error.kind()) => {
                thread::sleep(rt, Duration::from_millis(CHECK_INTERVAL));
            }
            Err(_) => return Ok(None),
        }
    }
    Ok(None)
}

/// Returns whether an accept that failed with this kind of error may succeed if it is tried again.
fn is_transient(kind: io::ErrorKind) -> bool {
    matches!(
        kind,
        io::ErrorKind::WouldBlock | io::ErrorKind::Interrupted | io::ErrorKind::ConnectionAborted
    )
}

/// Listens on a port of this machine, with a backlog of `BACKLOG`, or the library's default if the system refuses that.
/// Returns an error if that port can't be used.
fn listen_on<R: Net<Listener = TcpListener, Stream = TcpStream>>(
    rt: &R,
    port: u16,
) -> io::Result<TcpListener> {
    let listener = TcpListener::bind(rt, on_this_machine(port))?;
    let _ = listen(listener.as_raw_fd(), BACKLOG);
    Ok(listener)
}

/// Returns the address of a port that can be reached only from this machine.
fn on_this_machine(port: u16) -> SocketAddr {
    SocketAddr::from((Ipv4Addr::LOCALHOST, port))
}

/// Returns the bell of a host with this state and these ports. When a session has ended, the bell counts it in the
/// state. When the host is over, it also wakes the accepts at both ports, by connections. For these it holds a spare
/// descriptor, a copy of the desk's listener. Returns an error if the system refuses the copy, or memory runs out.
pub fn bell_of<'a, R>(
    rt: &'a R,
    state: &'a HostState,
    ports: &Ports,
) -> Result<EndBell<'a, R>, ListenFault> {
    let spare = ports.desk_listener.try_clone()?;
    Ok(EndBell {
        rt,
        state,
        ports: [on_this_machine(ports.port), on_this_machine(ports.desk)],
        spare: Mutex::new(Some(spare)),
    })
}

/// The two ports of a class, each as an `A`: the desk's (`at_desk`) and the students' (`elsewhere`).
#[derive(Drop)]
pub struct TwoPorts<A: Drop> {
    pub at_desk: A,
    pub elsewhere: A,
}

/// Returns the two ports, the desk's and the students', which accept connections at the listeners in `ports`. The first
/// connection of the desk is `ports.first`, if there is one. `state` is the host's state.
pub fn open_ports<'a, R: Clock + Wait + Eprint>(
    rt: &'a R,
    alloc: Global,
    state: &'a HostState,
    ports: Ports,
) -> TwoPorts<Port<'a, R>> {
    TwoPorts {
        at_desk: Port::new(rt, alloc, state, true, ports.desk_listener, ports.first),
        elsewhere: Port::new(rt, alloc, state, false, ports.listener, None),
    }
}
