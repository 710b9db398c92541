//! A test of a slow put. The put holds the lock until another session waits for the lock, and a third one was
//! answered. An error (`Fail`) means that memory ran out.
//!
//! An act is a request for an event. A view is what a see, a look or a report shows. A put is a write to the sink,
//! which is the destination of the journal's bytes. The lock is that of the list of events: an act takes it, and a view
//! doesn't.
use super::steps::{Hold, Holds, Steps};
use super::{ANA_GRANTED, ANA_MOVES, are_answered, serve};
use mml_fakes::lines;
use mml_fakes::scripts::BEN_MOVES;
use mml_journal::{Sink, SinkFault};
use mml_session::Point;
use std::alloc::Global;
use std::sync::Wait;
use std::test::Fail;
use std::thread;
use std::thread::Threads;

/// The number of the put among the connections of `Steps`. The three sessions have the numbers before it.
const PUT: u8 = 4;

/// How often the put lets other threads run, after the second session has come to its second line and the third has got
/// its second reply.
const TURNS: u64 = 100_000;

/// The steps at which the sessions wait. The second and the third wait at their second line until the first put has
/// begun. The put waits until the second session has come to its second line, and the third has got its second reply.
const HOLDS: &[Hold] = &[
    (2, 2, PUT, 1),
    (3, 2, PUT, 1),
    (PUT, 0, 2, 3),
    (PUT, 0, 3, 4),
];

/// A sink that stores all bytes. The first put waits as `HOLDS` says, and then lets other threads run `TURNS` times.
#[derive(Drop)]
struct Slow<'a> {
    bytes: Vec<u8>,
    failures: u64,
    steps: &'a Steps<'a>,
}

impl<'a> Sink for Slow<'a> {
    ghost use Rattle.std.specs.Prelude.{None};

    ghost contents = { λ _. None };

    ghost failures = { λ s. s.failures };

    // Stores all bytes. For `Steps`, the first put is one more connection: it waits until the second session has come
    // to its second line, and the third has got its second reply. Then the put lets other threads run `TURNS` times.
    // Fails, and counts the failure, if memory runs out.
    fn put(&mut self, bytes: &[u8]) -> Result<usize, SinkFault> {
        if self.bytes.is_empty() {
            self.steps.come(PUT, Point::Line);
            for _ in 0..TURNS {
                thread::yield_now();
            }
        }
        if self.bytes.extend_from_slice(bytes).is_err() {
            self.failures += 1;
            return Err(SinkFault);
        }
        Ok(bytes.len())
    }
}

/// Cyd's hello, a see of node 2, and a bye.
const CYD_LOOKS: &str = lines!(hello("cyd", "c-key"), see(2), bye);

/// The replies to `BEN_MOVES` if the move is the second event.
const BEN: &str = lines!(welcome("ben"), granted(2, 2), left);

/// The replies to `CYD_LOOKS`.
const CYD: &str = lines!(welcome("cyd"), seen(0, false, 2, "null"), left);

/// The journal of ana's move and then ben's.
const JOURNAL: &str = "1 0 grant ana 1 seduction\n2 0 grant ben 2 seduction\n";

/// Serves three sessions over a sink whose first put is slow. Returns two answers: whether all are answered rightly and
/// the journal has both moves, and whether the sessions and the put waited as `HOLDS` says. Both are `false` if the
/// sessions couldn't be served to their end.
fn results_of_a_slow_put<R: Threads + Wait + Sync>(
    rt: &R,
    alloc: Global,
) -> Result<(bool, bool), Fail> {
    let steps = Steps::new(alloc, PUT, Holds::Each(HOLDS))?;
    let sink = Slow {
        bytes: Vec::new(alloc),
        failures: 0,
        steps: &steps,
    };
    let mut out = Vec::new(alloc);
    let scripts = [ANA_MOVES, BEN_MOVES, CYD_LOOKS];
    let Ok(house) = serve(rt, alloc, sink, &scripts, 3, &steps, &mut out)? else {
        return Ok((false, false));
    };
    let are_so = are_answered(&house, &[ANA_GRANTED, BEN, CYD])
        && house.log.sink.bytes.as_slice() == JOURNAL.as_bytes();
    Ok((are_so, steps.were_in_turn()))
}

/// Checks three sessions, of which one makes a slow put that holds the lock. Meanwhile a view of another session
/// mustn't wait for the lock, and an act of the third must.
#[test]
fn a_lock_that_is_held_is_waited_for_by_acts_alone(rt: HostRuntime) -> Result<(), Fail> {
    assert_eq!(rt; results_of_a_slow_put(&rt, rt.alloc())?, (true, true));
    Ok(())
}
