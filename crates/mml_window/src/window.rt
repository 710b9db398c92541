//! Windows: the part of a house that belongs to each session.
//!
//! A house is one run of a lab that threads share: its list of granted events, the board after them, and their journal.
//! Its writer, `press`, publishes the events and the board. A board is the state of a run after some events. The
//! writer has slots, and a window needs one to read. A window is one session's view of the published events and
//! board. The place of an event is its number in the list of events, from 1. An act is a request for an event. The
//! journal is halted if a line couldn't be written to it. A ledger is a count that only contracts can read: a total,
//! and shares whose amounts add up to it. It takes no bytes. A clause `nodes` says that a result names only nodes of
//! the lab.
ghost use Rattle.std.specs.Prelude.{◌≡◌, ◌≢◌, ℕ, ◌+◌, ◌-◌, ◌<◌, ◌≤◌, ◌++◌, ◌∷◌, [], length, drop, vec_capacity, IfOk, IfErr, IsTrue, IsFalse, MatchBool};
ghost use mathlib.Core.List.{IsPrefix};
ghost use Rattle.std.specs.Arc.{arc_value};
ghost use Rattle.mml_lab.specs.Labs.{IsLab};
ghost use Rattle.mml_lab.specs.declared.TheConstants.{MAX_EVENTS};
ghost use Rattle.mml_policy.specs.declared.command.Command.TheVariants as command;
ghost use Rattle.mml_policy.specs.declared.ruling.Ruling.TheVariants as rulings;
ghost use Rattle.mml_policy.specs.About.{IsSeen, IsLookedAt};
ghost use Rattle.mml_stable.specs.Reports.{report_of, NamesNodes};
ghost use Rattle.mml_window.specs.declared.sight.SightFault.TheVariants as faults;
ghost use Rattle.mml_board.specs.Lists.{world_in};
ghost use Rattle.mml_window.specs.Windows.{window, window_with, IsWindow, SeesOn};
ghost use Rattle.mml_window.specs.Views.{AnswersView, TellsNumber};
ghost use Rattle.mml_window.specs.Tallies.{times};
ghost use Rattle.mml_window.specs.inside.Cursors.{IsStuck};
ghost use Rattle.mml_window.specs.inside.Seats.{IsSeat};
ghost use Rattle.mml_window.specs.inside.Shares.{IsShareOf};
ghost use Rattle.mml_window.specs.inside.Keeping.{IsNextPlace, Keeps, granted_by};

use crate::answer::Answer;
use crate::house::{
    GrantShare, HaltCount, HaltShare, House, Press, Shares, SpareCount, SpareShare,
};
use crate::looking::{Reader, enter, leave, look_for, take_slot};
use crate::showing::{look_at, report_at, see_at};
use crate::sight::{Closed, SightFault};
use mml_board::Event;
use mml_ids::IdTable;
use mml_lab::{Lab, Roster, Who};
use mml_policy::{Look, Refusal, See};
use mml_stable::Report;
use std::alloc::Global;
use std::marker::{Model, PhantomData};
use std::sync::{Arc, Wait};

/// The part of a house that belongs to one session: a reader of the published data, and the places of the events that
/// the session was granted. No public call of a window takes the runtime, so none can wait for the lock. A house is one
/// run of a lab that threads share: its list of granted events, the board after them, and their journal.
#[derive(Drop)]
pub struct Window<H: House> {
    // `None` if no reader's slot was free so far; the window has then seen nothing. Also `None` while the window is
    // read.
    reader: Option<Reader<H>>,
    lab: Arc<Lab>,
    places: Vec<u64>,
    // Why the session's last act was refused, if it was.
    refused: Option<Refusal>,
    // How many of its acts were refused because the journal was halted.
    halts: HaltShare<H>,
    // The sum over these refusals: how many more events the lab allowed then.
    spares: SpareShare<H>,
    // How many events the session was granted, that is, how many places there are.
    grants: GrantShare<H>,
    of: PhantomData<H>,
}

impl<H: House> Model for Window<H> {
    ghost use Rattle.std.specs.Prelude.{◌≡◌, ◌<◌, ◌≤◌, length, vec_capacity};
    ghost use Rattle.std.specs.Arc.{arc_value};
    ghost use Rattle.mml_window.specs.Windows.{WindowValue, window_with, IsWindow};
    ghost use Rattle.mml_window.specs.inside.Readers.{view_by};

    ghost Value = { WindowValue };

    ghost view = { λ w. window_with (view_by w.reader).seen w.places.items w.refused w.halts.amount w.spares.amount };

    ghost invariant = { λ w. IsWindow H.lab
        (window_with (view_by w.reader).seen w.places.items w.refused w.halts.amount w.spares.amount)
        × (arc_value w.lab ≡ H.lab) × (H.lab.events ≤ vec_capacity w.places) × (w.halts.parts ≡ 1)
        × (w.grants.amount ≡ length w.places.items) × (w.spares.parts ≡ 1) };
}

/// What a window is made of: the lab, and room for the places that its session may be granted. The place of an event is
/// its number in the list of events, from 1.
#[derive(Drop)]
pub(crate) struct Seat {
    pub lab: Arc<Lab>,
    pub places: Vec<u64>,
}

impl<H: House> Window<H> {
    /// Returns a window that is made of a seat (the lab, and room for places), and has seen nothing yet. It takes a
    /// slot of `press` if one is free; otherwise it takes one at a later act. `shares` are its shares of the house's
    /// ledgers. None may have counted anything yet, and those of the two counts of acts that were refused because the
    /// journal was halted must have one part.
    pub(crate) fn over(press: &Press<H>, seat: Seat, shares: Shares<H>) -> Window<H>
        requires lawful { IsLab H.lab }
        requires seat { IsSeat H.lab seat }
        requires part { shares.halts.parts ≡ 1 }
        requires spare_part { shares.spares.parts ≡ 1 }
        requires none { shares.halts.amount ≡ 0 }
        requires none_spared { shares.spares.amount ≡ 0 }
        requires no_grants { shares.grants.amount ≡ 0 }
        ensures { result ≡ window [] [] }
    {
        let Seat { lab, places } = seat;
        let Shares {
            halts,
            spares,
            grants,
        } = shares;
        let mut reader = None;
        take_slot(press, &mut reader);
        Window {
            reader,
            lab,
            places,
            refused: None,
            halts,
            spares,
            grants,
            of: PhantomData,
        }
    }

    /// Returns how many events the window has seen.
    pub fn seen_count(&self) -> u64
        ensures { result ≡ length self.now.seen }
    {
        match &self.reader {
            Some(reader) => reader.count(),
            None => 0,
        }
    }

    /// Returns why the last act of the window's session was refused. Returns `None` if that act was granted or denied,
    /// or if there was no act.
    pub fn refused(&self) -> Option<Refusal>
        ensures { result ≡ self.now.refused }
    {
        self.refused
    }

    /// Keeps what the answer to an act says. After a grant, reads until the window has seen the granted event, which
    /// must be the last one that `press` has published, and keeps its place (number). After a refusal, keeps the
    /// reason; any other answer removes an earlier reason. `grant` must have counted the granted event if there is one,
    /// and is then merged into the window's share of granted events.
    #[tactic(auto, using(crate::proofs::TallyLemmas::climbs_count))]
    pub(crate) fn keep<R: Wait>(
        &mut self,
        rt: &R,
        press: &Press<H>,
        answer: &Answer,
        grant: GrantShare<H>,
    )
        requires next { IsNextPlace H.lab self.old.seen press.now.desk.shown.value.events.items answer.now }
        requires counted { grant.amount ≡ granted_by answer.now }
        ensures { Keeps press.now.desk.shown.value.events.items self.old answer.now self.new }
    {
        match answer {
            Answer::Denied(_) => self.refused = None,
            Answer::Refused(refusal) => self.refused = Some(*refusal),
            Answer::Granted { place, .. } => {
                self.refused = None;
                match press.published().events.last() {
                    Some(event) => {
                        look_for(rt, press, &mut self.reader, |published| {
                            published.ends_in(*place, event)
                        });
                        self.places.push_reserved(*place);
                        self.grants.merge(grant);
                    }
                    // After a grant, the granted event is published.
                    None => unreachable!(),
                }
            }
        }
    }

    /// Returns the identifiers of the lab's nodes.
    pub fn ids(&self) -> &IdTable
        ensures ids { result.now ≡ H.lab.ids }
        ensures window { IsWindow H.lab self.now }
    {
        self.lab.ids()
    }

    /// Returns the lab's roster: who takes part, and who owns which node.
    pub fn roster(&self) -> &Roster
        ensures roster { result.now ≡ H.lab.roster }
        ensures window { IsWindow H.lab self.now }
    {
        self.lab.roster()
    }

    /// Returns the number of the configuration that is published. Returns `Closed` if the house has ended, or the
    /// window has no reader's slot. Unless it returns `Closed`, the window has then seen all events that are published.
    pub fn number(&mut self) -> Result<u64, Closed>
        ensures { TellsNumber H.lab self.old result self.new }
    {
        let Some(reading) = enter(&mut self.reader) else {
            return Err(Closed);
        };
        let number = reading.get().board.number();
        self.reader = Some(leave(reading));
        Ok(number)
    }

    /// Returns the published registers of the node with the identifier `node`, if `who` may see it, and else `Denied`
    /// with the reason. Returns `Closed` if the house has ended, or the window has no reader's slot. Unless it returns
    /// `Closed`, the window has then seen all events that are published. Allocates nothing.
    pub fn see(&mut self, who: Who, node: u64) -> Result<See, SightFault>
        ensures tells { AnswersView rulings.Seen H.lab self.old who (command.See node) result self.new }
        ensures nodes { IfOk result (IsSeen H.lab.ids) }
        ensures memory { IfErr result (λ fault. fault ≢ faults.Memory) }
    {
        let Some(reading) = enter(&mut self.reader) else {
            return Err(SightFault::Closed);
        };
        let see = see_at(&reading.get().board, &self.lab, who, node);
        self.reader = Some(leave(reading));
        see
    }

    /// Returns the published node with the identifier `node` as its owners see it, if `who` owns it or is the teacher,
    /// and else `Denied` with the reason. Returns `Memory` if memory runs out, and `Closed` if the house has ended, or
    /// the window has no reader's slot. Unless it returns `Closed`, the window has then seen all events that are
    /// published.
    pub fn look(&mut self, alloc: Global, who: Who, node: u64) -> Result<Look, SightFault>
        ensures tells { AnswersView rulings.Looked H.lab self.old who (command.Look node) result
            self.new }
        ensures nodes { IfOk result (IsLookedAt H.lab.ids) }
    {
        let Some(reading) = enter(&mut self.reader) else {
            return Err(SightFault::Closed);
        };
        let look = look_at(alloc, &reading.get().board, &self.lab, who, node);
        self.reader = Some(leave(reading));
        look
    }

    /// Returns the report on the published configuration, if `who` is the teacher, and else `Denied` with the reason.
    /// Returns `Memory` if memory runs out, and `Closed` if the house has ended, or the window has no reader's slot.
    /// Unless it returns `Closed`, the window has then seen all events that are published.
    pub fn report(&mut self, alloc: Global, who: Who) -> Result<Report, SightFault>
        ensures tells { AnswersView (λ r. rulings.Reported) H.lab self.old who command.Report result
            self.new }
        ensures report { IfOk result (λ r. r ≡ report_of (world_in H.lab self.new.seen)) }
        ensures nodes { IfOk result (NamesNodes (length H.lab.ids)) }
    {
        let Some(reading) = enter(&mut self.reader) else {
            return Err(SightFault::Closed);
        };
        let report = report_at(alloc, &reading.get().board, &self.lab, who);
        self.reader = Some(leave(reading));
        report
    }

    /// Reads the published data until the window has seen the board that `press`, the writer, has published last, and
    /// events that lead to this board. `Desk::ask` calls this before it decides an act, so that the window has seen the
    /// board on which the act is decided. Waits for a reader's slot if the window has none and none is free. With a
    /// slot, one reading is enough, since nothing is published while `press` is borrowed.
    pub(crate) fn read_until_board<R: Wait>(&mut self, rt: &R, press: &Press<H>)
        ensures on { SeesOn H.lab self.old self.new }
        ensures world { world_in H.lab self.new.seen ≡ press.now.desk.shown.value.board }
    {
        let board = &press.published().board;
        look_for(rt, press, &mut self.reader, |published| {
            published.board.is_same(board)
        });
    }

    /// Reads the published data until the window has seen all events that `press`, the writer, has published. Waits for
    /// a slot as `read_until_board` does. `Book::show_all` calls this for each window when a resumed house is opened,
    /// and when a house ends.
    pub(crate) fn read_until_all<R: Wait>(&mut self, rt: &R, press: &Press<H>)
        ensures window { self.new ≡ window_with press.now.desk.shown.value.events.items
            self.old.places self.old.refused self.old.halts self.old.spare }
        ensures begins { IsPrefix self.old.seen press.now.desk.shown.value.events.items }
    {
        let events = press.published().events.as_slice();
        look_for(rt, press, &mut self.reader, |published| {
            published.has_all(events)
        });
    }

    /// Counts one more act of the window's session that was refused because the journal was halted. `halts` is the
    /// house's total of such acts. `spare` is added to `spares`, the house's sum over such acts. It must be at least
    /// how many more events the lab allows after those that the window has seen.
    pub(crate) fn count_halt(
        &mut self,
        halts: &mut HaltCount<H>,
        spares: &mut SpareCount<H>,
        spare: u64,
    )
        requires { H.lab.events - length self.old.seen ≤ spare }
        ensures window { self.new ≡ window_with self.old.seen self.old.places self.old.refused
            (self.old.halts + 1) (self.old.spare + spare) }
        ensures total { halts.new.total ≡ halts.old.total + 1 }
        ensures spared { spares.new.total ≡ spares.old.total + spare }
    {
        halts.add(&mut self.halts, 1);
        spares.add(&mut self.spares, spare);
    }

    /// Changes nothing. It is called for its contract: `count`, the house's total of acts that were refused because the
    /// journal was halted, is at least the window's share.
    pub(crate) fn audit_halts(&mut self, count: &mut HaltCount<H>)
        ensures window { self.new ≡ self.old }
        ensures total { count.new.total ≡ count.old.total }
        ensures few { self.old.halts ≤ count.old.total }
    {
        count.audit(&mut self.halts);
    }

    /// Drops the window, and returns its shares of the house's ledgers.
    pub(crate) fn into_shares(self) -> Shares<H>
        ensures window { IsWindow H.lab self }
        ensures shares { IsShareOf self result.halts.amount result.spares.amount result.grants.amount }
        ensures part { result.halts.parts ≡ 1 }
        ensures spare_part { result.spares.parts ≡ 1 }
    {
        let Window {
            halts,
            spares,
            grants,
            ..
        } = self;
        Shares {
            halts,
            spares,
            grants,
        }
    }

    /// Returns how many places (event numbers) the window's session was granted.
    #[tactic(auto, using(crate::proofs::TallyLemmas::climbs_count))]
    pub(crate) fn place_count(&self) -> u64
        ensures count { result ≡ length self.now.places }
        ensures few { result ≤ MAX_EVENTS }
    {
        self.places.len() as u64
    }

    /// Returns whether the window's place (event number) at the index `cursor` is `place`. Returns `false` if there is
    /// none at this index. At the end of a house, the places of a window are counted off in order, and those before the
    /// cursor are counted off already.
    #[tactic(auto, using(crate::proofs::TallyLemmas::climbs_count, std::proofs::lemmas::List::drop_more))]
    pub(crate) fn is_next(&self, cursor: usize, place: u64) -> bool
        ensures next { IsTrue result → (drop cursor self.now.places
            ≡ place ∷ drop (cursor + 1) self.now.places) × (cursor < MAX_EVENTS) }
        ensures stuck { IsFalse result → IsStuck place (drop cursor self.now.places) }
    {
        match self.places.get(cursor) {
            Some(next) => *next == place,
            None => false,
        }
    }

    /// Returns whether the index `cursor` is past the last of the window's places (event numbers). Then all of them are
    /// counted off, as `is_next` explains.
    #[tactic(auto, using(crate::proofs::TallyLemmas::at_end))]
    pub(crate) fn is_counted_off(&self, cursor: usize) -> bool
        ensures { MatchBool result (drop cursor self.now.places ≡ [])
            ((p : ℕ) × (0 < times p (drop cursor self.now.places))) }
    {
        cursor >= self.places.len()
    }
}
