//! The name of a house for contracts, and the parts by which it publishes.
//!
//! A house is one run of a lab that threads share: its list of granted events, the board after them, and their journal.
//! A window is one session's view of the published events and board. A board is the state of a run after some events.
//! A ledger is a count that only contracts can read: a total, and shares whose amounts add up to it. It takes no
//! bytes. A share consists of parts: a ledger has a fixed number of them.
use crate::published::Published;
use crate::seeing::{Publishing, View};
use left_right::reader::{Reader, Reading};
use left_right::writer::Writer;
use mml_board::Event;
pub use std::marker::Brand;
use std::marker::PhantomData;
use std::sync::ledger::{Book, Ledger, Share};

/// The name of one house, used only in contracts: a type that ties a desk, its book and its windows to each other. A
/// house is one run of a lab that threads share: its list of granted events, the board after them, and their journal.
pub trait House {
    ghost use Rattle.mml_lab.specs.Labs.{LabValue};
    ghost use Rattle.mml_window.specs.Houses.{HouseName};

    // A name that no other house has as long as this house exists. It also says how many events came before the house
    // was opened.
    ghost name: { HouseName };

    // The lab of the house: identifiers, roster, links and registers at the beginning, and limits.
    ghost lab: { LabValue };
}

/// The name that stands for any house: the proof of each call chooses the lab and the name.
impl House for Brand {
    ghost use Rattle.mml_window.specs.Houses.{no_name, no_lab};

    ghost name = { no_name };

    ghost lab = { no_lab };
}

/// A slot, by which one reader enters the published copy of a house's data. The writer waits until no reader is in the
/// copy that it changes.
pub(crate) type Slot<H> = Reader<Published, View, Publishing<H>>;

/// A reader that has entered, with the copy that it reads.
pub(crate) type Entered<H> = Reading<Published, View, Publishing<H>>;

/// The writer by which a house publishes its events.
pub(crate) type Press<H> = Writer<Published, Event, View, Publishing<H>>;

/// The first ledger of a house. It counts the acts that the house refused because its journal was halted. It has a part
/// for each session of the lab.
pub(crate) struct Halts<H: House> {
    of: PhantomData<H>,
}

impl<H: House> Ledger for Halts<H> {
    ghost name = { H.name.halts };

    ghost parts = { H.lab.sessions };
}

/// The second ledger of a house. For each act that the house refused because its journal was halted, it adds how many
/// more events the lab allowed then. It has a part for each session of the lab.
pub(crate) struct Spares<H: House> {
    of: PhantomData<H>,
}

impl<H: House> Ledger for Spares<H> {
    ghost name = { H.name.spares };

    ghost parts = { H.lab.sessions };
}

/// The third ledger of a house. It counts the events that the house granted. It has a part for each event that the lab
/// allows, and one more.
pub(crate) struct Grants<H: House> {
    of: PhantomData<H>,
}

impl<H: House> Ledger for Grants<H> {
    ghost use Rattle.std.specs.Prelude.{◌+◌};

    ghost name = { H.name.grants };

    ghost parts = { H.lab.events + 1 };
}

/// The total of the first ledger: how many acts the house refused because its journal was halted.
pub(crate) type HaltCount<H> = Book<Halts<H>>;

/// A share of the first ledger: how many acts of one window were refused because the journal was halted.
pub(crate) type HaltShare<H> = Share<Halts<H>>;

/// The total of the second ledger: the sum over the refusals that the first one counts.
pub(crate) type SpareCount<H> = Book<Spares<H>>;

/// A share of the second ledger: the sum over such refusals of one window.
pub(crate) type SpareShare<H> = Share<Spares<H>>;

/// The total of the third ledger: how many events the house granted.
pub(crate) type GrantCount<H> = Book<Grants<H>>;

/// A share of the third ledger: how many events were granted to one window, or in one act.
pub(crate) type GrantShare<H> = Share<Grants<H>>;

/// A share of each of the three ledgers of a house.
#[derive(Drop)]
pub(crate) struct Shares<H: House> {
    pub halts: HaltShare<H>,
    pub spares: SpareShare<H>,
    pub grants: GrantShare<H>,
}

/// The totals of the three ledgers of a house.
#[derive(Drop)]
pub(crate) struct Totals<H: House> {
    pub halts: HaltCount<H>,
    pub spares: SpareCount<H>,
    pub grants: GrantCount<H>,
    /// The parts of the count of grants that aren't used yet.
    pub unused: GrantShare<H>,
}
