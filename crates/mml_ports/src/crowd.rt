//! The connections that are served at a port, and which of them has to leave if a new one needs a seat.
//!
//! A seat is a part of the server that serves one connection after another. A guest is a connection that is served in a
//! seat. A stranger is a guest whose hello wasn't granted and who isn't leaving; at the desk only the teacher's hello
//! counts. The partings of a port are the connections that have left their seats and aren't closed yet. A parameter
//! `guests` is the list of guests, which the caller has locked.
ghost use Rattle.std.specs.Prelude.{◌<◌, IfSome, vec_len};

use crate::end_reason::EndReason;
use crate::parting::Partings;
use crate::shared_socket::SharedSocket;
use mml_ids::Memory;
use mml_lab::Who;
use std::alloc::Global;
use std::sync::atomic::{AtomicBool, Ordering};
use std::sync::{Arc, Mutex, Wait};
use std::time::{Clock, Duration, Instant};

// Strangers may hold the number of a port's seats divided by this, rounded down, but always at least one seat.
const STRANGERS: usize = 3;

// How many seats connections of one participant may hold while others wait for a seat.
const SEATS_OF_A_NAME: usize = 4;

// After new connections have waited for this many milliseconds, a participant with more than `SEATS_OF_A_NAME` seats
// loses one. The delay is for seats that are just becoming free.
const MOMENT: u64 = 250;

// How many milliseconds a stranger who got no reply yet may keep a seat while others wait for one.
const GRACE: u64 = 100;

// A guest: a connection that is served in a seat.
#[derive(Drop)]
struct Guest {
    socket: Arc<SharedSocket, Global>,
    since: Instant,
    // The participant whose hello was granted here, if one was. At the desk only the teacher's counts.
    greeting: Option<Who>,
    is_leaving: bool,
}

impl Guest {
    /// Returns whether the guest is a stranger: its hello wasn't granted (at the desk, only the teacher's counts), and
    /// it isn't leaving.
    fn is_stranger(&self) -> bool {
        self.greeting.is_none() && !self.is_leaving
    }

    /// Returns whether the guest is a stranger who may be sent away at the time `now`: one who was answered or denied,
    /// or has been here for `GRACE` milliseconds. A stranger whose hello was denied needs no seat to wait for the
    /// delayed reply.
    fn may_go(&self, now: Instant) -> bool {
        self.is_stranger()
            && (self.socket.is_answered.load(Ordering::SeqCst)
                || self.socket.was_denied()
                || now.duration_since(self.since) >= Duration::from_millis(GRACE))
    }

    /// Returns whether this guest isn't leaving, and its hello was granted to the same participant as the other
    /// guest's.
    fn has_name_of(&self, other: &Guest) -> bool {
        match (self.greeting, other.greeting) {
            (Some(own), Some(its)) => own == its && !self.is_leaving,
            _ => false,
        }
    }

    /// Ends the guest's connection with the reason `Busy`, so that its seat becomes free for another.
    fn send_away<Rt: Wait>(&mut self, rt: &Rt) {
        self.is_leaving = true;
        self.socket.end_with(rt, EndReason::Busy);
    }
}

/// The crowd of a port: its guests, which are the connections that are served there, in the order in which they came.
/// Some of them are strangers, who may have to leave if a new connection needs a seat.
#[derive(Drop)]
pub struct Crowd {
    guests: Mutex<Vec<Guest>>,
    // How many connections may be served at a time.
    seats: usize,
    // Whether a new connection waits for a seat.
    pub(crate) is_wanted: AtomicBool,
    pub(crate) partings: Partings,
}

impl Crowd {
    /// Returns the crowd of a port with this many seats, before anybody is served there.
    pub fn new(alloc: Global, seats: usize) -> Crowd {
        Crowd {
            guests: Mutex::new(Vec::new(alloc)),
            seats,
            is_wanted: AtomicBool::new(false),
            partings: Partings::new(alloc),
        }
    }

    /// Adds a connection to the guests. The connection is served from the instant `since` on. Returns `Memory`, and
    /// doesn't add it, if memory runs out.
    pub fn note_served<Rt: Wait>(
        &self,
        rt: &Rt,
        socket: Arc<SharedSocket, Global>,
        since: Instant,
    ) -> Result<(), Memory> {
        let guest = Guest {
            socket,
            since,
            greeting: None,
            is_leaving: false,
        };
        match self.guests.lock(rt).push(guest) {
            Ok(()) => Ok(()),
            Err(_) => Err(Memory),
        }
    }

    /// Notes that the hello of the connection with this number was granted to `who`, so that it is no stranger any
    /// more. Does nothing if the connection isn't in the list of guests.
    pub fn note_greeting<Rt: Wait>(&self, rt: &Rt, number: u64, who: Who) {
        let mut guests = self.guests.lock(rt);
        if let Some(at) = index_of_guest(&guests, number)
            && let Some(guest) = guests.get_mut(at)
        {
            guest.greeting = Some(who);
        }
    }

    /// Removes the connection with this number from the guests, so that its seat is free again. Does nothing if it
    /// isn't in the list.
    pub fn note_left<Rt: Wait>(&self, rt: &Rt, number: u64) {
        let mut guests = self.guests.lock(rt);
        if let Some(at) = index_of_guest(&guests, number) {
            drop(guests.remove(at));
        }
    }

    /// Notes whether a new connection waits for a seat (`is_wanted`).
    pub fn note_wanted(&self, is_wanted: bool) {
        self.is_wanted.store(is_wanted, Ordering::SeqCst);
    }

    /// Returns whether a new connection waits for a seat.
    pub fn is_wanted(&self) -> bool {
        self.is_wanted.load(Ordering::SeqCst)
    }

    /// If a new connection waits for a seat, calls `let_stranger_go`, which may send a stranger away. Does nothing if
    /// the clock fails. The function is called after a connection was answered, or when the hello of a connection is
    /// denied, since this connection may then be sent away.
    pub fn make_room<Rt: Wait + Clock>(&self, rt: &Rt) {
        if self.is_wanted()
            && let Ok(now) = Instant::now(rt)
        {
            let mut guests = self.guests.lock(rt);
            self.let_stranger_go(rt, &mut guests, now);
        }
    }

    /// Returns whether strangers hold all the seats that they may: a third of the port's, and at least one.
    fn is_share_taken(&self, guests: &Vec<Guest>) -> bool {
        count_strangers(guests) >= (self.seats / STRANGERS).max(1)
    }

    /// Sends away the stranger who came first among those for whom `may_go` is true at the time `now`, if there is one.
    /// Does so only if strangers hold all the seats that they may, or if no seat is free and nobody is leaving. Without
    /// the second case, a few strangers could keep the last seats until their deadlines.
    fn let_stranger_go<Rt: Wait>(&self, rt: &Rt, guests: &mut Vec<Guest>, now: Instant) {
        let is_full = guests.len() >= self.seats && !is_one_leaving(guests);
        if (is_full || self.is_share_taken(guests))
            && let Some(at) = first_who_may_go(guests, now)
            && let Some(guest) = guests.get_mut(at)
        {
            guest.send_away(rt);
        }
    }

    /// Returns whether a guest is leaving, or a connection that has left its seat isn't closed yet.
    pub fn is_parting<Rt: Wait>(&self, rt: &Rt) -> bool {
        let is_leaving = is_one_leaving(&self.guests.lock(rt));
        // The guests are checked first: a guest whose denial is sent later joins the partings before it leaves the list
        // of guests. In this order it can't be missed.
        is_leaving || !self.partings.is_empty(rt)
    }

    /// Returns whether a new connection may have a seat at the time `now`: a seat is free, and strangers don't hold all
    /// the seats that they may. Otherwise sends away at most one guest, and returns `false`. The first choice is the
    /// stranger whom `let_stranger_go` sends away, if any. The second is the guest whom `one_too_many` finds, the last
    /// one whose participant has too many seats. That guest is sent away only if strangers don't hold all the seats
    /// that they may, nobody is leaving, and new connections have waited for `MOMENT`. `wanted` is how long they have
    /// waited.
    pub fn finds_room<Rt: Wait>(&self, rt: &Rt, now: Instant, wanted: Duration) -> bool {
        let mut guests = self.guests.lock(rt);
        let is_share_taken = self.is_share_taken(&guests);
        if !is_share_taken && guests.len() < self.seats {
            return true;
        }
        self.let_stranger_go(rt, &mut guests, now);
        if !is_share_taken
            && wanted >= Duration::from_millis(MOMENT)
            && !is_one_leaving(&guests)
            && let Some(at) = one_too_many(&guests)
            && let Some(guest) = guests.get_mut(at)
        {
            guest.send_away(rt);
        }
        false
    }
}

/// Returns the index of the guest whose connection has this number, or `None` if there is no such guest.
fn index_of_guest(guests: &Vec<Guest>, number: u64) -> Option<usize>
    ensures { IfSome result (λ index. index < vec_len guests.now) }
{
    for index in 0..guests.len() {
        if guests[index].socket.number == number {
            return Some(index);
        }
    }
    None
}

/// Returns how many of the guests are strangers.
fn count_strangers(guests: &Vec<Guest>) -> usize {
    let mut count = 0usize;
    for index in 0..guests.len() {
        if guests[index].is_stranger() {
            count = count.saturating_add(1);
        }
    }
    count
}

/// Returns the index of the first guest who is a stranger and may be sent away at the time `now`, or `None` if there is
/// none.
fn first_who_may_go(guests: &Vec<Guest>, now: Instant) -> Option<usize> {
    for index in 0..guests.len() {
        if guests[index].may_go(now) {
            return Some(index);
        }
    }
    None
}

/// Returns whether one of the guests is leaving its seat.
fn is_one_leaving(guests: &Vec<Guest>) -> bool {
    for index in 0..guests.len() {
        if guests[index].is_leaving {
            return true;
        }
    }
    false
}

/// Returns the index of the last guest whose participant has more than `SEATS_OF_A_NAME` seats, or `None` if no
/// participant has more. For each guest, counts the seats of its participant, without those of guests who are leaving.
fn one_too_many(guests: &Vec<Guest>) -> Option<usize> {
    let mut found = None;
    for index in 0..guests.len() {
        let mut seats = 0usize;
        for other in 0..guests.len() {
            if guests[other].has_name_of(&guests[index]) {
                seats = seats.saturating_add(1);
            }
        }
        if seats > SEATS_OF_A_NAME {
            found = Some(index);
        }
    }
    found
}
