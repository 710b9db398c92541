//! Gates: points at which tests can stop a session.
//!
//! The number of a connection is the one with which `serve_one` serves it.
/// A point at which a gate may pause a session.
#[derive(Clone, Copy, PartialEq, Eq)]
pub enum Point {
    /// A line was read, and isn't answered yet.
    Line,
    /// The reply to a line was written.
    Told,
}

/// An object that can pause a session at each `Point`, for any length of time. The session holds no lock there. Tests
/// pause sessions to choose the order of their steps.
pub trait Gate {
    /// Blocks until the session may go on from `point`. `connection` is the number of the session's connection.
    fn pass(&self, connection: u8, point: Point);
}

/// A gate that pauses no session.
#[derive(Clone, Copy)]
pub struct NoGate;

impl Gate for NoGate {
    // Returns at once, so that no session is paused.
    fn pass(&self, _connection: u8, _point: Point) {}
}
