//! The state of a host that its threads share.
//!
//! The host has two ports: the desk, which is the teacher's, and the students' port. The crowd of a port has the list
//! of the connections that are served there. The turn of a denial is the time before which it isn't sent. A seat is a
//! part of the server that serves one connection after another.
use crate::crowd::Crowd;
use mml_lab::Lab;
use std::alloc::Global;
use std::io;
use std::sync::{Condvar, CondvarTimeouts, Mutex, RwLock, Wait};
use std::time::{Clock, Duration, Instant};

// The most milliseconds that `wait_past` waits.
const PAUSE: u64 = 100;

// The most milliseconds that `wait_past` waits if it is hurried.
const SHORT_PAUSE: u64 = 5;

// How many milliseconds lie between the turns of two denials of a name and key, at both ports together.
const DENIAL_INTERVAL: u64 = 12;

// The number of denials of a name and key at which they are first reported.
const FIRST_REPORT: u64 = 30;

// What the threads of the host have noted so far.
#[derive(Drop)]
struct Notes {
    // How many sessions have ended.
    ended: u64,
    is_over: bool,
    lacked_memory: bool,
    // The earliest turn for the next denial of a name and key.
    next_denial: Option<Instant>,
    // How many hellos were denied because of their name and key.
    denials: u64,
    // The number of denials at which the next report about them is due.
    next_report: u64,
}

/// The state of a host, which its threads share: how many sessions have ended, whether the host is over, and whether
/// memory ran out. The state also says when denials are due, and who is served at each port.
#[derive(Drop)]
pub struct HostState {
    notes: Mutex<Notes>,
    changed: Condvar,
    // Whether the reply to the teacher's bye at the desk was sent.
    pub(crate) is_dismissed: RwLock<bool>,
    at_desk: Crowd,
    elsewhere: Crowd,
}

impl HostState {
    /// Returns the state of a host of the lab, before anything was noted. The desk has one seat, and the students' port
    /// has as many as are left of the sessions that the lab allows.
    pub fn new(alloc: Global, lab: &Lab) -> HostState {
        HostState {
            notes: Mutex::new(Notes {
                ended: 0,
                is_over: false,
                lacked_memory: false,
                next_denial: None,
                denials: 0,
                next_report: FIRST_REPORT,
            }),
            changed: Condvar::new(),
            is_dismissed: RwLock::new(false),
            at_desk: Crowd::new(alloc, 1),
            elsewhere: Crowd::new(alloc, usize::from(lab.sessions()).saturating_sub(1)),
        }
    }

    /// Returns the crowd at the desk if `is_desk` is set, and otherwise the one at the students' port.
    pub fn crowd(&self, is_desk: bool) -> &Crowd {
        if is_desk {
            &self.at_desk
        } else {
            &self.elsewhere
        }
    }

    /// Returns whether the reply to the teacher's bye at the desk was sent. If it is being written, waits until the
    /// write has ended. Lines that are read after that reply aren't answered.
    pub fn is_dismissed<Rt: Wait>(&self, rt: &Rt) -> bool {
        *self.is_dismissed.read(rt)
    }

    /// Counts a session that has ended. If `is_over` is set, notes that the host is over. Wakes the threads that wait
    /// in `wait_past`.
    pub fn note_end<Rt: Wait>(&self, rt: &Rt, is_over: bool) {
        let mut notes = self.notes.lock(rt);
        notes.ended = notes.ended.wrapping_add(1);
        if is_over {
            notes.is_over = true;
        }
        self.changed.notify_all();
    }

    /// Notes that memory ran out. From now on `lacked_memory` returns `true`, and at its end the host reports that.
    pub fn note_memory<Rt: Wait>(&self, rt: &Rt) {
        self.notes.lock(rt).lacked_memory = true;
    }

    /// Returns how many sessions have ended.
    pub fn ended_count<Rt: Wait>(&self, rt: &Rt) -> u64 {
        self.notes.lock(rt).ended
    }

    /// Returns whether the host is over, so that no more connections are to be served.
    pub fn is_over<Rt: Wait>(&self, rt: &Rt) -> bool {
        self.notes.lock(rt).is_over
    }

    /// Returns whether a thread has noted that memory ran out.
    pub fn lacked_memory<Rt: Wait>(&self, rt: &Rt) -> bool {
        self.notes.lock(rt).lacked_memory
    }

    /// Waits until the number of ended sessions isn't `count` any more. Waits for at most a tenth of a second, or 5
    /// milliseconds if `is_hurried` is set.
    pub fn wait_past<Rt: Wait + Clock>(&self, rt: &Rt, count: u64, is_hurried: bool) {
        let pause = Duration::from_millis(if is_hurried { SHORT_PAUSE } else { PAUSE });
        let _ended = self.changed.wait_timeout_while(
            rt,
            self.notes.lock(rt),
            pause,
            |notes| notes.ended == count,
        );
    }

    /// Takes the next turn for a denial of a name and key, and returns it: the time before which this denial isn't
    /// sent. Each denial needs a call of its own. The turn is now, or 12 milliseconds after the turn that the last call
    /// took for either port, if that is later. Returns an error if the clock fails.
    pub fn turn_of_denial<Rt: Wait + Clock>(&self, rt: &Rt) -> io::Result<Instant> {
        let now = Instant::now(rt)?;
        let mut notes = self.notes.lock(rt);
        let turn = match notes.next_denial {
            Some(next) if next > now => next,
            _ => now,
        };
        notes.next_denial = turn.checked_add(Duration::from_millis(DENIAL_INTERVAL));
        Ok(turn)
    }

    /// Counts a denial of a name and key. Returns the count if it is to be reported: at the 30th denial, the 300th, the
    /// 3000th, and so on. Returns `None` otherwise.
    pub fn note_denial<Rt: Wait>(&self, rt: &Rt) -> Option<u64> {
        let mut notes = self.notes.lock(rt);
        notes.denials = notes.denials.saturating_add(1);
        if notes.denials < notes.next_report {
            return None;
        }
        notes.next_report = notes.next_report.saturating_mul(10);
        Some(notes.denials)
    }
}
