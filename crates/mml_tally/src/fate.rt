//! What happens to granted moves.
//!
//! A grant chooses a move for a node, a release drops it, and a close applies all chosen moves at once. A fault sets a
//! node's registers, a link joins two nodes, and a cut removes a link. Each of these three drops the chosen moves of
//! all nodes. The place of an event is its number in the list of events, from 1.
ghost use Rattle.std.specs.Prelude.{◌≡◌, ◌+◌, ◌<◌, ◌^◌, length};
ghost use Rattle.mml_tally.specs.Moves.{ended_by, fate_of};

use mml_board::Event;
use mml_ids::Rank;

/// What happens to a granted move. The next close applies it, unless a release, a fault, a link or a cut drops it
/// before.
#[derive(Clone, Copy, PartialEq, Eq)]
pub enum Fate {
    /// The close at this place applies the move.
    Applied(u64),
    /// A release drops the move.
    Released,
    /// A fault, a link or a cut drops the move.
    Dropped,
    /// No event has applied or dropped the move, so it is still chosen.
    Chosen,
}

/// Returns what an event does to the move that is chosen at a node, or `None` if the move stays chosen. A fault, a link
/// or a cut drops it, even at other nodes. `place` is the event's place.
pub fn ended_by(node: Rank, place: u64, event: &Event) -> Option<Fate>
    ensures { result ≡ ended_by node place event.now }
{
    match *event {
        Event::Grant { .. } => None,
        Event::Release { node: released } => {
            if released == node {
                Some(Fate::Released)
            } else {
                None
            }
        }
        Event::Close => Some(Fate::Applied(place)),
        Event::Fault { .. } | Event::Link { .. } | Event::Cut { .. } => Some(Fate::Dropped),
    }
}

/// Returns what happens to a move that was granted at a node, or `Chosen` if no event ends it. `later` has the events
/// after the move's grant, and `place` is the place of the first of them. The places of all of them must fit in 64
/// bits.
pub fn fate_of(node: Rank, place: u64, later: &[Event]) -> Fate
    requires { place + length later.now < 2 ^ 64 }
    ensures { result ≡ fate_of node place later.now }
{
    for (index, event) in later.iter().enumerate() {
        if let Some(fate) = ended_by(node, place + index as u64, event) {
            return fate;
        }
    }
    Fate::Chosen
}
