//! The parts of the system that serving a class needs.
//!
//! A trait bundles them, so that functions have one bound in place of eight.
use std::net::{Net, TcpListener, TcpStream};
use std::sync::Wait;
use std::thread::Threads;
use std::time::Clock;

/// The parts of the system that serving a class needs, apart from files. Threads share the value. Files aren't
/// included, because a thread can't be given the bound `Files` of a type parameter.
pub trait System: Net<Listener = TcpListener, Stream = TcpStream>
    + Threads
    + Wait
    + Clock
    + Print
    + Eprint
    + AllocGlobal
    + Sync {}

impl<
    R: Net<Listener = TcpListener, Stream = TcpStream>
        + Threads
        + Wait
        + Clock
        + Print
        + Eprint
        + AllocGlobal
        + Sync,
> System for R {}
