//! A window of a house together with its desk.
//!
//! A house is one run of a lab that threads share. A window is one session's view of the published events. At the desk
//! sessions ask for events, and an act is a request for one. The type `H` is the name of a house, and only contracts
//! use it. A gate is a point at which tests can stop a session.
ghost use Rattle.std.specs.Prelude.{◌≡◌, true};
ghost use Rattle.mml_policy.specs.Acts.{is_act};

use crate::fake_reader::FakeReader;
use crate::fake_writer::FakeWriter;
use mml_journal::Sink;
use mml_lab::Who;
use mml_policy::Command;
use mml_session::{NoGate, SessionEnd, serve_one};
use mml_window::{Answer, Desk, House, Window};
use std::alloc::Global;
use std::sync::Wait;

/// A window of a house, and what is needed to ask for acts through it.
#[derive(Drop)]
pub struct WindowAtDesk<'a, S: Sink, H: House, R: Wait> {
    pub rt: &'a R,
    pub alloc: Global,
    pub desk: &'a Desk<S, H>,
    pub window: Window<H>,
}

impl<'a, S: Sink + Drop, H: House, R: Wait> WindowAtDesk<'a, S, H, R> {
    /// Asks the desk through the window for the act `command`, as the participant `who`, and returns the answer.
    pub fn ask(&mut self, who: Who, command: &Command) -> Answer
        requires { is_act command.now ≡ true }
    {
        self.desk
            .ask(self.rt, self.alloc, &mut self.window, who, command)
    }

    /// Serves a session through the window, as connection 1, and without a gate. Reads lines from `reader` and writes
    /// the replies to `writer`. Returns how the session ended.
    pub fn serve(&mut self, reader: &mut FakeReader<'_>, writer: &mut FakeWriter) -> SessionEnd {
        serve_one(
            self.rt,
            self.alloc,
            self.desk,
            &mut self.window,
            reader,
            writer,
            &NoGate,
            1,
        )
    }
}

/// Two windows of one house, each with the desk.
#[derive(Drop)]
pub struct Pair<'a, S: Sink, H: House, R: Wait> {
    pub one: WindowAtDesk<'a, S, H, R>,
    pub two: WindowAtDesk<'a, S, H, R>,
}

impl<'a, S: Sink + Drop, H: House, R: Wait> Pair<'a, S, H, R> {
    /// Returns these two windows, each with the desk.
    pub fn new(
        rt: &'a R,
        alloc: Global,
        desk: &'a Desk<S, H>,
        windows: (Window<H>, Window<H>),
    ) -> Pair<'a, S, H, R> {
        let (one, two) = windows;
        Pair {
            one: WindowAtDesk {
                rt,
                alloc,
                desk,
                window: one,
            },
            two: WindowAtDesk {
                rt,
                alloc,
                desk,
                window: two,
            },
        }
    }

    /// Returns the first and the second window, without the desk. The windows are needed to end the house.
    pub fn into_windows(self) -> (Window<H>, Window<H>) {
        let Pair { one, two } = self;
        let WindowAtDesk { window: first, .. } = one;
        let WindowAtDesk { window: second, .. } = two;
        (first, second)
    }
}
