//! The lines by which the other side learns why its connection is ended. These lines aren't replies of a session.
//!
//! A seat is a part of the server that serves one connection after another.
use mml_hosting::BUSY;

/// Why the host ends a connection.
#[derive(Clone, Copy, PartialEq, Eq)]
pub enum EndReason {
    /// There is no seat for the connection.
    Busy,
    /// A line didn't come in time, or no hello was granted in time.
    Late,
    /// A line was longer than a request may be.
    Long,
    /// The class has ended.
    Over,
}

impl EndReason {
    /// Returns the line that is sent to the other side for this reason.
    pub fn line(self) -> &'static [u8] {
        match self {
            EndReason::Busy => BUSY,
            EndReason::Late => b"{\"refuse\":\"late\"}\n",
            EndReason::Long => b"{\"refuse\":\"long\"}\n",
            EndReason::Over => b"{\"refuse\":\"over\"}\n",
        }
    }
}
