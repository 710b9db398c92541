//! The replies to requests.
//!
//! A clause is a condition under which a request is granted; a denial names the first that doesn't hold. A refusal has
//! another reason, for example that memory ran out. The place of an event is its number in the list of events, from 1.
ghost use Rattle.std.specs.Prelude.{◌≡◌};

use mml_ids::{NodeSet, Rank};
use mml_lab::Who;
use mml_policy::{Denial, Look, Refusal, See};
use mml_rules::Kind;
use mml_stable::Report;

/// The capacity, in bytes, that suffices to write the line of each reply but a look and a report without allocating.
pub const REPLY_ROOM: usize = 2048;

/// The reply line to a line that is no request, with its newline.
pub const MALFORMED_LINE: &str = "{\"refuse\":\"malformed\"}\n";

/// The reply line, with its newline, to a request for an event that all clauses allow, if the lab has had all its
/// events.
pub const FULL_LINE: &str = "{\"refuse\":\"full\"}\n";

/// The reply line, with its newline, to a request for an event that all clauses allow, if the journal is halted or
/// didn't take the whole line of the event.
pub const JOURNAL_LINE: &str = "{\"refuse\":\"journal\"}\n";

/// The reply line, with its newline, if memory ran out.
pub const MEMORY_LINE: &str = "{\"refuse\":\"memory\"}\n";

/// Why a request got neither an answer nor a denial.
#[derive(Clone, Copy, PartialEq, Eq)]
pub enum Refused {
    /// The line is no request.
    Malformed,
    /// The lab has had as many events as it may.
    Full,
    /// The journal is halted, or didn't take the whole line of the event.
    Journal,
    /// Memory ran out.
    Memory,
}

impl From<Refusal> for Refused {
    ghost use Rattle.mml_codec.specs.Rulings.{refusal_for};

    ghost from_gives = { λ refusal refused. refused ≡ refusal_for refusal };

    // Returns the `Refused` of the same name for the policy's reason not to answer an allowed command.
    fn from(refusal: Refusal) -> Refused {
        match refusal {
            Refusal::Full => Refused::Full,
            Refusal::Journal => Refused::Journal,
            Refusal::Memory => Refused::Memory,
        }
    }
}

/// The reply to a line.
#[derive(Drop)]
pub enum Reply {
    /// This participant is known on the connection from now on.
    Hello(Who),
    /// Nobody is known on the connection from now on.
    Bye,
    /// The registers of a node, in the reply to a granted see.
    See(See),
    /// The registers of a node and its neighbours, and the node's enabled and chosen rules, in the reply to a granted
    /// look.
    Look(Look),
    /// A move is chosen for the node. In each reply to a granted event, `at` is the number of the configuration after
    /// the event, and `place` is the event's place.
    Move {
        at: u64,
        place: u64,
        node: Rank,
        kind: Kind,
    },
    /// The chosen moves of these nodes were applied.
    Close {
        at: u64,
        place: u64,
        moved: NodeSet,
    },
    /// The registers of the node are set, and this many chosen moves were dropped.
    Fault {
        at: u64,
        place: u64,
        node: Rank,
        dropped: u16,
    },
    /// The two nodes are linked, and this many chosen moves were dropped.
    Link {
        at: u64,
        place: u64,
        a: Rank,
        b: Rank,
        dropped: u16,
    },
    /// The two nodes are no longer linked, and this many chosen moves were dropped.
    Cut {
        at: u64,
        place: u64,
        a: Rank,
        b: Rank,
        dropped: u16,
    },
    /// The node no longer has a chosen move.
    Release {
        at: u64,
        place: u64,
        node: Rank,
    },
    /// The report on all nodes.
    Report(Report),
    /// A clause of the request doesn't hold.
    Deny(Denial),
    /// The request was refused.
    Refuse(Refused),
}

/// Replaces the reply in `out` by `reply`. The function is inlined, so that a reply, which is large, is written
/// straight into `out`.
#[inline(always)]
pub fn put_in(out: &mut Reply, reply: Reply)
    ensures { out.new ≡ reply }
{
    *out = reply;
}
