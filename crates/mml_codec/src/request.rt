//! The requests, and the errors of reading them.
//!
//! An account is known on a connection from its granted hello to its bye.
ghost use Rattle.std.specs.Prelude.{◌≡◌};
ghost use Rattle.mml_codec.specs.declared.request.LineFault.TheVariants.{Memory};
ghost use Rattle.mml_codec.specs.Greetings.{refusal_of};

use crate::reply::Refused;
use mml_ids::Word;
use mml_policy::Command;
use std::alloc::AllocError;

/// A request: what one line of a client asks for.
#[derive(Drop)]
pub enum Request {
    /// Asks that the connection is known as the participant with this name and key.
    Hello { name: Word, key: Word },
    /// Asks that the connection is known as no one.
    Bye,
    /// A command, which only a known participant may give.
    Do(Command),
}

/// Why no request was read from a line.
#[derive(Clone, Copy, Debug, PartialEq, Eq)]
pub enum LineFault {
    /// The line is no request.
    Malformed,
    /// Memory ran out.
    Memory,
}

impl LineFault {
    /// Returns the refusal that answers a line from which no request was read.
    pub fn refusal(self) -> Refused
        ensures { result ≡ refusal_of self }
    {
        match self {
            LineFault::Malformed => Refused::Malformed,
            LineFault::Memory => Refused::Memory,
        }
    }
}

impl From<AllocError> for LineFault {
    ghost from_gives = { λ _ e. e ≡ Memory };

    // Turns a failed allocation into `LineFault::Memory`, so that `?` returns it.
    fn from(_error: AllocError) -> LineFault {
        LineFault::Memory
    }
}
