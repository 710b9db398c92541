//! A test of connections over sockets of this machine, which are numbered as they come: a gate sees their numbers. The
//! clients connect and send before the server accepts, so the system buffers what they send and get. An error means
//! that the system refused a call, or memory ran out.
//!
//! A gate is a point at which tests can stop a session.
use mml_fakes::labs::PATH_OF_THREE;
use mml_fakes::lines;
use mml_fakes::meeting::wait_for;
use mml_fakes::scripts::{ANA_GRANTED, ANA_MOVES, ONE_CLOSED};
use mml_journal::MemorySink;
use mml_lab_file::read_lab;
use mml_serving::serve_on;
use mml_session::{Gate, Point};
use std::alloc::Global;
use std::io;
use std::io::Write;
use std::net::{Ipv4Addr, Net, Shutdown, SocketAddr, TcpListener, TcpStream};
use std::sync::Wait;
use std::sync::atomic::{AtomicU64, Ordering};
use std::test::Fail;
use std::thread::Threads;

/// A gate that makes each connection but the first wait until the first has had `wanted` replies.
#[derive(Drop)]
struct After {
    replies: AtomicU64,
    wanted: u64,
}

impl Gate for After {
    // Counts the replies to connection 1. Makes any other connection wait at each point until `wanted` replies were
    // counted, or `wait_for` gives up.
    fn pass(&self, connection: u8, point: Point) {
        if connection == 1 && point == Point::Told {
            self.replies.fetch_add(1, Ordering::SeqCst);
        }
        if connection != 1 {
            wait_for(&self.replies, self.wanted);
        }
    }
}

/// Connects a client to this address, sends the text, and shuts down the sending side. Returns the stream, from which
/// the replies can be read, or the system's error.
fn client<R: Net<Listener = TcpListener, Stream = TcpStream>>(
    rt: &R,
    address: SocketAddr,
    text: &str,
) -> io::Result<TcpStream> {
    let mut stream = TcpStream::connect(rt, address)?;
    stream.write_all(text.as_bytes())?;
    stream.shutdown(Shutdown::Write)?;
    Ok(stream)
}

/// Serves two connections of a listener over the path of three. The second one waits until the first has had two
/// replies. Returns whether the server ended without an error, and wrote exactly `last`, its last line. Returns `false`
/// if the lab has fewer than two sessions, which `serve_on` requires.
fn is_served<R: Threads + Wait + Sync>(
    rt: &R,
    alloc: Global,
    listener: TcpListener,
    last: &str,
) -> Result<bool, Fail> {
    let lab = read_lab(alloc, PATH_OF_THREE.as_bytes())?;
    if lab.sessions() < 2 {
        return Ok(false);
    }
    let gate = After {
        replies: AtomicU64::new(0),
        wanted: 2,
    };
    let sink = MemorySink::new(alloc, None);
    let mut out = Vec::new(alloc);
    let ended = serve_on(rt, alloc, lab, listener, 2, sink, &gate, &mut out);
    Ok(ended.is_ok() && out.as_slice() == last.as_bytes())
}

/// Reads from a client's stream until the connection ends. Returns whether the client got exactly these replies.
fn is_answered(alloc: Global, stream: TcpStream, replies: &str) -> io::Result<bool> {
    let found = io::read_to_string(alloc, &stream)?;
    Ok(found.as_str() == replies)
}

/// The teacher's hello and a close.
const STEP: &str = lines!(hello("tess", "chalk"), close);

/// The replies to `STEP` if the close is the second event, and applies a move of node 1.
const STEP_REPLIES: &str = lines!(welcome("tess"), closed);

/// Serves two clients. Both send all their lines at once, before the server accepts. The gate in `is_served` holds the
/// second connection until the first has had its two replies, so the close is answered after the move. Returns three
/// results: whether the server ended well, and whether the first and the second client got the right replies.
fn results_of_two<
    R: Net<Listener = TcpListener, Stream = TcpStream> + Threads + Wait + Sync + AllocGlobal,
>(rt: &R) -> Result<(bool, bool, bool), Fail> {
    let listener = TcpListener::bind(rt, SocketAddr::from((Ipv4Addr::LOCALHOST, 0)))?;
    let address = listener.local_addr()?;
    let first = client(rt, address, ANA_MOVES)?;
    let second = client(rt, address, STEP)?;
    let is_served = is_served(rt, rt.alloc(), listener, ONE_CLOSED)?;
    let is_granted = is_answered(rt.alloc(), first, ANA_GRANTED)?;
    let is_closed = is_answered(rt.alloc(), second, STEP_REPLIES)?;
    Ok((is_served, is_granted, is_closed))
}

/// Checks that two clients are served and answered rightly. If the connections were numbered the other way round, the
/// gate would let the close come first, and its reply would be another one.
#[test]
fn connections_are_numbered_as_they_come(rt: HostRuntime) -> Result<(), Fail> {
    assert_eq!(rt; results_of_two(&rt)?, (true, true, true));
    Ok(())
}
