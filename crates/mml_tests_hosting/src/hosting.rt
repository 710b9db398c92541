//! Tests of a house that serves one connection after another at two ports: the desk's and the students'. The
//! teacher's bye at the desk ends the house. An error (`Fail`) means that memory ran out, or that a house which
//! should end well ended with a fault.
//!
//! A house is one run of a lab that threads share. A close is an event that applies all chosen moves. An assertion
//! inside a loop would need a loop invariant, so loops are in functions whose result a test asserts. A talk is one
//! connection of a test: whether it comes to the desk's port, what it sends, and which replies it should get.
use crate::texts::{Count, Left, TextClass, Texts, Timed, cycle_of_six, sent_to};
use mml_fakes::lines;
use mml_fakes::scripts::{CLOSED_JOURNAL, NOTHING_CLOSED, ONE_CLOSED, TESS_CLOSES};
use mml_hosting::{HostFault, no_observers, serve_host};
use mml_journal::MemorySink;
use mml_lab::Lab;
use std::alloc::{AllocError, Global};
use std::sync::Wait;
use std::test::Fail;
use std::thread::Threads;

/// One connection of a test: whether it comes to the desk's port (otherwise it comes to the students'), what it sends,
/// and which replies it should get.
type Talk = (bool, &'static str, &'static str);

// Ana's hello, a move of node 1, a see of it, and a bye.
const ANA_MOVES: &str = lines!(hello("ana", "a-key"), seduction(1), see(1), bye);

/// Ana moves node 1, sees it, and says bye. She connects to the students' port.
const ANA: Talk = (
    false,
    ANA_MOVES,
    lines!(
        welcome("ana"),
        granted(1, 1),
        seen(0, false, 1, "null"),
        left
    ),
);

/// Ben asks for a seduction and leaves without a bye. His move is denied, since node 6 has no neighbour with a greater
/// identifier.
const BEN: Talk = (
    false,
    lines!(hello("ben", "b-key"), see(6), seduction(6)),
    lines!(welcome("ben"), seen(0, false, 6, "null"), guard),
);

/// Somebody who hasn't said hello asks for a close and says bye at the desk. The house doesn't end by that.
const NOBODY: Talk = (true, lines!(close, bye), lines!(not_greeted, left));

/// The teacher's connection closes a step, and then breaks off within a line.
const FALLEN: Talk = (
    true,
    lines!(hello("tess", "chalk"), close, "{\"do\":\"cl"),
    lines!(welcome("tess"), closed),
);

/// The teacher's bye at the students' port, which doesn't end the house.
const ELSEWHERE: Talk = (false, TESS_CLOSES, NOTHING_CLOSED);

/// The teacher's bye at the desk, which ends the house.
const TESS: Talk = (true, TESS_CLOSES, NOTHING_CLOSED);

/// Ana connects again and sends the same lines, in configuration 1.
const AGAIN: Talk = (
    false,
    ANA_MOVES,
    lines!(welcome("ana"), stale(1), seen(1, false, 1, 6), left),
);

/// The connections of one house, in the order in which they come.
const TALKS: &[Talk] = &[ANA, BEN, NOBODY, FALLEN, ELSEWHERE, AGAIN, AGAIN, TESS];

/// Returns the connections of these talks that come to the desk's port if `is_desk` is set, and otherwise those that
/// come to the students' port. Each comes when the connections of all earlier talks have ended; `count` counts them.
/// Returns an error if memory runs out.
fn texts_of<'a>(
    alloc: Global,
    talks: &[Talk],
    is_desk: bool,
    count: &'a Count,
) -> Result<Texts<'a>, AllocError> {
    let mut said = Vec::new(alloc);
    let mut number = 0u64;
    for (at_desk, text, _) in talks {
        if *at_desk == is_desk {
            said.push(Timed {
                after: number,
                number,
                text,
            })?;
        }
        number = number.saturating_add(1);
    }
    Texts::of(alloc, &said, count)
}

/// Serves the connections of these talks in a house over a cycle of six nodes. What the host prints is appended to
/// `out`. Returns the result of the house, or the fault of the host. Returns an error (`Fail`) if memory runs out.
fn host<R: Threads + Wait + Sync>(
    rt: &R,
    alloc: Global,
    talks: &[Talk],
    out: &mut Vec<u8>,
) -> Result<Result<Left, HostFault>, Fail> {
    let count = Count::new();
    let at_desk = texts_of(alloc, talks, true, &count)?;
    let at_port = texts_of(alloc, talks, false, &count)?;
    let lab = cycle_of_six(alloc, 100)?;
    Ok(host_in_memory(rt, alloc, lab, at_desk, at_port, &count, out))
}

/// Serves the connections `at_desk` and `at_port` in a house of this lab, with a journal in memory and no record.
/// `count` counts the sessions that have ended. What the host prints is appended to `out`. Returns the result of the
/// house, or the fault of the host.
fn host_in_memory<'a, R: Threads + Wait + Sync>(
    rt: &'a R,
    alloc: Global,
    lab: Lab,
    at_desk: Texts<'a>,
    at_port: Texts<'a>,
    count: &Count,
    out: &mut Vec<u8>,
) -> Result<Left, HostFault> {
    let Ok(observers) = no_observers(alloc, &lab) else {
        return Err(HostFault::Memory);
    };
    let sink = MemorySink::new(alloc, None);
    serve_host::<TextClass<'a, R>, _>(
        rt, alloc, lab, sink, observers, at_desk, at_port, count, out,
    )
}

/// Returns whether the connection of each of these talks got exactly the replies that it should. The index of a talk is
/// the number of its connection. `left` is the result of the house.
fn are_answered(left: &Left, talks: &[Talk]) -> bool {
    let mut number = 0u64;
    for (_, _, replies) in talks {
        if sent_to(left, number) != Some(replies.as_bytes()) {
            return false;
        }
        number = number.saturating_add(1);
    }
    true
}

/// Serves `TALKS` in a house. Returns three answers: whether each connection gets the right replies, whether the
/// journal has exactly a move and its close, and whether the printed line counts both events. Returns an error if the
/// house ends with a fault.
fn results_of_talks<R: Threads + Wait + Sync>(rt: &R, alloc: Global) -> Result<[bool; 3], Fail> {
    let mut out = Vec::new(alloc);
    match host(rt, alloc, TALKS, &mut out)? {
        Ok(left) => {
            let is_journal = left.log.sink.bytes() == CLOSED_JOURNAL.as_bytes();
            let is_last = out.as_slice() == ONE_CLOSED.as_bytes();
            Ok([are_answered(&left, TALKS), is_journal, is_last])
        }
        Err(_) => Err(Fail::from("a fault")),
    }
}

/// Checks a house that serves the connections of `TALKS` one after another. Each must get its replies, the journal must
/// be right, and so must what the host prints at the end.
#[test]
fn sessions_come_one_after_another(rt: HostRuntime) -> Result<(), Fail> {
    assert_eq!(rt; results_of_talks(&rt, rt.alloc())?, [true; 3]);
    Ok(())
}

/// Serves two connections in a house: one says bye at the desk without a hello, and the teacher says bye at the
/// students' port. Returns whether the house ends with the fault `Undismissed`, and the host prints nothing. Returns an
/// error if memory runs out.
fn is_undismissed<R: Threads + Wait + Sync>(rt: &R, alloc: Global) -> Result<bool, Fail> {
    let mut out = Vec::new(alloc);
    let left = host(rt, alloc, &[NOBODY, ELSEWHERE], &mut out)?;
    Ok(matches!(left, Err(HostFault::Undismissed)) && out.is_empty())
}

/// Checks that a house ends with the fault `Undismissed`, and the host prints nothing, if the teacher has said bye only
/// at the students' port.
#[test]
fn a_bye_at_the_port_ends_no_house(rt: HostRuntime) -> Result<(), Fail> {
    assert!(rt; is_undismissed(&rt, rt.alloc())?);
    Ok(())
}
