//! A gate that counts each session's steps, and makes sessions wait for each other. The steps are the first line, the
//! first reply, the second line, and so on.
//!
//! A gate is called when a session has read a line, and when it has written the reply. A hold names a connection, one
//! of its steps (from 0 on), another connection, and a number of steps. The first connection waits at that step until
//! the other one has come to that many steps.
use mml_fakes::meeting::wait_for;
use mml_session::{Gate, Point};
use std::alloc::{AllocError, Global};
use std::sync::atomic::{AtomicU64, Ordering};

/// A connection, one of its steps (from 0 on), another connection, and a number of steps. The first connection waits at
/// that step until the other one has come to that many steps.
pub type Hold = (u8, u64, u8, u64);

/// At which steps sessions wait for each other.
#[derive(Clone, Copy)]
pub enum Holds<'a> {
    /// At each step, until all connections have come to it.
    Together,
    /// At the steps that these holds name, as long as each says.
    Each(&'a [Hold]),
}

/// A gate that makes sessions wait at their steps, and counts the steps that each has come to.
#[derive(Drop)]
pub struct Steps<'a> {
    holds: Holds<'a>,
    /// How many steps each connection has come to.
    steps: Vec<AtomicU64>,
    /// How often a wait was given up, since it took too long.
    given_up: AtomicU64,
    /// How often a connection came to a line when it should come to a reply, or the other way round.
    out_of_turn: AtomicU64,
}

impl<'a> Steps<'a> {
    /// Returns a gate for the connections 1 to `connections`, none of which has come to a step yet. Returns an error if
    /// memory runs out.
    pub fn new(alloc: Global, connections: u8, holds: Holds<'a>) -> Result<Steps<'a>, AllocError> {
        let mut steps = Vec::new(alloc);
        for _ in 0..connections {
            steps.push(AtomicU64::new(0))?;
        }
        Ok(Steps {
            holds,
            steps,
            given_up: AtomicU64::new(0),
            out_of_turn: AtomicU64::new(0),
        })
    }

    /// Returns the counter of the steps of a connection, or `None` if no connection has this number. Connections are
    /// numbered from 1, and `connection` mustn't be 0.
    fn count_of(&self, connection: u8) -> Option<&AtomicU64> {
        self.steps.get(usize::from(connection.saturating_sub(1)))
    }

    /// Waits until `come`, the counter of a connection's steps, is at least `wanted`. If that takes too long, gives up,
    /// and counts the wait in `given_up`. Also does so, at once, if `come` is `None`, since the connection doesn't
    /// exist.
    fn wait_until(&self, come: Option<&AtomicU64>, wanted: u64) {
        let has_come = match come {
            Some(come) => wait_for(come, wanted),
            None => false,
        };
        if !has_come {
            self.given_up.fetch_add(1, Ordering::SeqCst);
        }
    }

    /// Waits until all connections have come to this step, that is, until each counter is at least `step + 1`. Gives up
    /// on each that takes too long, as `wait_until` does.
    fn hold_together(&self, step: u64) {
        for come in self.steps.iter() {
            self.wait_until(Some(come), step.saturating_add(1));
        }
    }

    /// Goes through these holds in their order. For each one that names this connection and this step, waits as the
    /// hold says.
    fn hold_each(&self, holds: &[Hold], connection: u8, step: u64) {
        for (held, at, other, wanted) in holds.iter() {
            if *held == connection && *at == step {
                self.wait_until(self.count_of(*other), *wanted);
            }
        }
    }

    /// Makes a connection wait at this step as `holds` says.
    fn wait_at(&self, connection: u8, step: u64) {
        match self.holds {
            Holds::Together => self.hold_together(step),
            Holds::Each(holds) => self.hold_each(holds, connection, step),
        }
    }

    /// Returns whether each connection came to a line and a reply alternately, beginning with a line, and no wait of
    /// one connection for another was given up.
    pub fn were_in_turn(&self) -> bool {
        self.given_up.load(Ordering::SeqCst) == 0 && self.out_of_turn.load(Ordering::SeqCst) == 0
    }

    /// Returns whether `were_in_turn` returns `true`, and each connection came to exactly `steps` steps.
    pub fn were_kept(&self, steps: u64) -> bool {
        self.were_in_turn()
            && self
                .steps
                .iter()
                .all(|come| come.load(Ordering::SeqCst) == steps)
    }

    /// Counts the next step of a connection, and makes the connection wait there as `holds` says. The even steps, from
    /// 0, are lines, and the odd ones replies. Counts one more in `out_of_turn` if `point` is of the other kind. For a
    /// connection that doesn't exist, no step is counted, and the step is taken as `u64::MAX`.
    pub fn come(&self, connection: u8, point: Point) {
        let step = match self.count_of(connection) {
            Some(come) => come.fetch_add(1, Ordering::SeqCst),
            None => u64::MAX,
        };
        let is_line = matches!(point, Point::Line);
        if is_line != (step % 2 == 0) {
            self.out_of_turn.fetch_add(1, Ordering::SeqCst);
        }
        self.wait_at(connection, step);
    }
}

impl<'a> Gate for Steps<'a> {
    // Counts the point as the connection's next step, and makes the session wait there as `holds` says.
    fn pass(&self, connection: u8, point: Point) {
        self.come(connection, point);
    }
}
