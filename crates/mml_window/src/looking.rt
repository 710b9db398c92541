//! How a window's reader reads the published data.
//!
//! A house is one run of a lab that threads share: its list of granted events, the board after them, and their journal.
//! A window is one session's view of the published events and board. A board is the state of a run after some events.
//! The writer of the published data, `press`, has two copies of it, and slots for readers. A reader enters the copy
//! that the writer doesn't change, reads it, and leaves it afterwards. The writer is gone once the house has ended.
ghost use Rattle.std.specs.Prelude.{◌≡◌, true, length, IfSome, IfNone};
ghost use Rattle.std.specs.Fn.{FnReturnsAt};
ghost use Rattle.left_right.specs.Sides.{view};
ghost use Rattle.mml_lab.specs.Labs.{IsLab};
ghost use Rattle.mml_window.specs.Rule.{viewer, Saw};
ghost use Rattle.mml_window.specs.inside.Readers.{view_by};

use crate::house::{Entered, House, Press, Slot};
use crate::published::Published;
use crate::seeing::Seeing;
use std::marker::Model;
use std::sync::Wait;

/// A reader of the data that a house publishes: its slot, and how many events it has seen.
#[derive(Drop)]
pub(crate) struct Reader<H: House> {
    slot: Slot<H>,
    count: u64,
}

impl<H: House> Model for Reader<H> {
    ghost use Rattle.std.specs.Prelude.{◌≡◌, length};
    ghost use Rattle.left_right.specs.Sides.{view as seen_at};
    ghost use Rattle.mml_window.specs.declared.seeing.View.{View};

    ghost Value = { View };

    ghost view = { λ r. seen_at r.slot.place };

    ghost invariant = { λ r. r.count ≡ length (seen_at r.slot.place).seen };
}

impl<H: House> Reader<H> {
    /// Returns how many events the reader has seen.
    pub(crate) fn count(&self) -> u64
        ensures { result ≡ length self.now.seen }
    {
        self.count
    }
}

/// Puts a new reader, which has seen nothing yet, into `reader`, if there is none in it and a slot of `press` is free.
/// Otherwise does nothing. `press` is the writer of the published data.
#[tactic(auto, using(crate::proofs::PrefixLemmas::prefix_nil, atomic_table::proofs::Lists::at_snoc))]
pub(crate) fn take_slot<H: House>(press: &Press<H>, reader: &mut Option<Reader<H>>)
    ensures { view_by reader.new ≡ view_by reader.old }
{
    if reader.is_none() {
        if let Ok(slot) = press.factory().reader() {
            *reader = Some(Reader { slot, count: 0 });
        }
    }
}

/// Takes the reader out of `reader`, and makes it enter the published copy, which can be read until `leave` is called.
/// Returns `None` if there is no reader, or if the writer is gone; `reader` then stays as it was.
#[tactic(auto, using(crate::proofs::RuleLemmas::enters, crate::proofs::ListLemmas::nodes_in))]
pub(crate) fn enter<H: House>(reader: &mut Option<Reader<H>>) -> Option<Entered<H>>
    ensures saw { IfSome result (λ reading.
        Saw H.lab (view_by reader.old) reading.part.value (view reading.place)) }
    ensures nodes { IfSome result (λ reading. IsLab H.lab
        → length H.lab.ids ≡ length reading.part.value.board.network.registers) }
    ensures same { IfNone result (view_by reader.new ≡ view_by reader.old) }
{
    let Reader { slot, count } = reader.take()?;
    match slot.enter_as::<Seeing<H>>() {
        Ok(reading) => Some(reading),
        Err(slot) => {
            *reader = Some(Reader { slot, count });
            None
        }
    }
}

/// Ends a reading that `enter` has returned, and returns its reader. The reader has then seen all events of the copy
/// that it had entered.
pub(crate) fn leave<H: House>(reading: Entered<H>) -> Reader<H>
    requires { view reading.place ≡ viewer reading.part.value.events.items }
    ensures { result ≡ view reading.place }
{
    let count = reading.get().events.len() as u64;
    Reader {
        slot: reading.leave(),
        count,
    }
}

/// Reads the published data, again and again, until `is_sought` returns true for it. If there is no reader yet, makes
/// one as soon as a slot is free. Nothing is published while `press` is borrowed. So if `is_sought` returns true for
/// what `press` shows, the first reading ends the search.
pub(crate) fn look_for<H: House, R: Wait, F: Fn(&Published) -> bool>(
    rt: &R,
    press: &Press<H>,
    reader: &mut Option<Reader<H>>,
    is_sought: F,
)
    requires { F.IsAlwaysCallable is_sought }
    ensures { (x : Published) × FnReturnsAt F.Fn is_sought x true
        × Saw H.lab (view_by reader.old) x (view_by reader.new) }
{
    // For a loop over `rt.forever()`, no end has to be proved. Only the `return` leaves it.
    'looks: for _ in rt.forever() {
        take_slot(press, reader);
        if let Some(reading) = enter(reader) {
            let is_found = is_sought(reading.get());
            *reader = Some(leave(reading));
            if is_found {
                return;
            }
        }
    }
    unreachable!()
}
