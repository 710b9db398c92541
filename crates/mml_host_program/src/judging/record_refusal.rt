//! Why a record is refused.
//!
//! The record of a class has a text for each seat. A seat is a part of the server that serves one connection after
//! another. After a line couldn't be written to the journal, a server refuses with `journal` whatever it would grant.
//! An entry has a line and its reply, a session's end, or a note that something is left out. The place of an event is
//! its number in the list of events, from 1.
ghost use Rattle.mml_host_program.specs.Refusals.{IsOfEntry, IsOfPlace};

use mml_class::Misgranted;
use mml_record::{BadEntry, Why};
use thiserror::Error;

/// Why a record is refused, in the words of the error line.
#[derive(Debug, Drop, Error)]
pub enum RecordRefusal {
    /// The entry of this seat at this line can't be in a record here.
    #[error("seat {0}, line {1}: {2}")]
    Entry(u8, u64, &'static str),
    /// The entry of this seat at this line doesn't match the journal at this place.
    #[error("seat {0}, line {1}: not the {2} at place {3}")]
    Place(u8, u64, &'static str, u64),
    /// A reply of this seat refuses with `journal` after this many events, but more events of the same server follow.
    #[error("seat {0}: refused with journal after {1} events, but more events follow")]
    Outlived(u8, u64),
    /// The event at this place isn't granted exactly once.
    #[error("place {0}: granted {1}")]
    Granted(u64, &'static str),
}

impl RecordRefusal {
    /// Returns the refusal for the first bad entry of a seat's record. If the entry grants another event than the
    /// journal has, the error line names the place of the journal's event: one more than the number of events that the
    /// entry says had been seen.
    pub fn of(seat: u8, bad: BadEntry) -> RecordRefusal
        ensures { IsOfEntry seat bad result }
    {
        let BadEntry { line, place, .. } = bad;
        match bad.why {
            Why::Torn => RecordRefusal::Entry(seat, line, "torn"),
            Why::NoEntry => RecordRefusal::Entry(seat, line, "not an entry"),
            Why::GoesBack => RecordRefusal::Entry(seat, line, "goes back"),
            Why::PastEnd => RecordRefusal::Entry(seat, line, "past the journal's end"),
            Why::GoesAhead => RecordRefusal::Entry(seat, line, "goes ahead"),
            Why::NoEnd => RecordRefusal::Entry(seat, line, "not the session's end"),
            Why::NoHello => RecordRefusal::Entry(seat, line, "not a hello that is granted"),
            Why::NoPause => RecordRefusal::Entry(seat, line, "not after a pause"),
            Why::OtherEvent => RecordRefusal::Place(
                seat,
                line,
                "journal's event",
                place.saturating_add(1),
            ),
            Why::Halted => { RecordRefusal::Entry(seat, line, "granted after the refusal journal") }
            Why::OtherReply => RecordRefusal::Place(seat, line, "reply of the rules", place),
        }
    }

    /// Returns the refusal for a fault in the places that the records of all seats grant together.
    pub fn of_places(amiss: Misgranted) -> RecordRefusal
        ensures { IsOfPlace amiss result }
    {
        match amiss {
            Misgranted::Early(place) => RecordRefusal::Granted(place, "before the record began"),
            Misgranted::Twice(place) => RecordRefusal::Granted(place, "twice"),
            Misgranted::Nowhere(place) => RecordRefusal::Granted(place, "in no record"),
        }
    }
}
