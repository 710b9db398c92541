//! Tests of a grant over a sink in memory, while one request for memory after another is refused. If the sink itself
//! runs out of memory, the journal is halted; otherwise the hall stays as it was. An error (`Fail`) means that a hall
//! couldn't be made because memory ran out.
//!
//! A hall is the server of one thread. A sink is the destination of the journal's bytes. The journal is halted if a
//! line couldn't be written to it. The parameter `is_there` of a function says whether the library that refuses
//! requests is loaded. An assertion inside a loop would need a loop invariant, so loops are in functions whose result a
//! test asserts.
use super::MOST;
use super::library::{is_there, refuse, was_none_refused};
use mml_codec::{JOURNAL_LINE, MEMORY_LINE, write_reply};
use mml_fakes::labs::PATH_OF_THREE;
use mml_fakes::scripts::{TEN_LINES, first_lines};
use mml_fakes::{line, lines};
use mml_hall::Hall;
use mml_journal::MemorySink;
use mml_lab_file::read_lab;
use std::alloc::Global;
use std::test::Fail;

/// Answers a request of connection 1, while the nth request for memory is refused (none for 0). Returns the reply line,
/// and whether no request for memory was refused. Returns `None` if the lab has no session, which `Hall::answer`
/// requires, or the line can't be written.
fn answer_with_refusal(
    alloc: Global,
    hall: &mut Hall<MemorySink>,
    request: &str,
    nth: usize,
    is_there: bool,
) -> Option<(Vec<u8>, bool)> {
    if hall.lab().sessions() < 1 {
        return None;
    }
    refuse(alloc, nth);
    let reply = hall.answer(alloc, 1, request.as_bytes());
    let was_none = was_none_refused(alloc, is_there);
    let mut out = Vec::new(alloc);
    let (ids, roster) = (hall.lab().ids(), hall.lab().roster());
    write_reply(alloc, ids, roster, &reply, &mut out).ok()?;
    Some((out, was_none))
}

/// Ana's hello.
const HELLO: &str = line!(hello("ana", "a-key"));

/// Ana's move of node 1 by Seduction.
const MOVE: &str = line!(seduction(1));

/// The reply line that grants `MOVE` as the first event.
const GRANTED: &str = lines!(granted(1, 1));

/// The outcome of a legal move over a sink in memory, while requests for memory are refused.
#[derive(Clone, Copy, Debug, PartialEq, Eq)]
enum Grant {
    /// The move was granted.
    Made,
    /// Memory ran out elsewhere than in the sink, and the hall is unchanged.
    Refused,
    /// The sink ran out of memory, which halted the journal.
    Halted,
}

/// Returns the outcome of the first move, as its `reply` shows it. Returns `None` if the reply shows none of the three
/// outcomes. Also returns `None` if the hall doesn't fit the outcome: its events, its journal, or whether the journal
/// is halted.
fn grant_of(hall: &Hall<MemorySink>, reply: &[u8]) -> Option<Grant> {
    let (found, events) = if reply == GRANTED.as_bytes() {
        (Grant::Made, 1)
    } else if reply == MEMORY_LINE.as_bytes() {
        (Grant::Refused, 0)
    } else if reply == JOURNAL_LINE.as_bytes() {
        (Grant::Halted, 0)
    } else {
        return None;
    };
    let journal = first_lines(TEN_LINES, events);
    let is_so = hall.events().len() as u64 == events
        && hall.sink().bytes() == journal.as_bytes()
        && hall.halted() == (found == Grant::Halted);
    is_so.then_some(found)
}

/// Asks for ana's move once more, while no request for memory is refused. Returns whether the reply says that the
/// journal is halted.
fn stays_halted(alloc: Global, hall: &mut Hall<MemorySink>, is_there: bool) -> bool {
    match answer_with_refusal(alloc, hall, MOVE, 0, is_there) {
        Some((reply, _)) => reply.as_slice() == JOURNAL_LINE.as_bytes(),
        None => false,
    }
}

/// Says hello as ana and moves node 1, while the nth request for memory of the move is refused. Returns the outcome of
/// the move, and whether no request was refused. Returns `None` if `grant_of` does, or a halted hall doesn't stay
/// halted.
fn grant_in(
    alloc: Global,
    hall: &mut Hall<MemorySink>,
    nth: usize,
    is_there: bool,
) -> Option<(Grant, bool)> {
    answer_with_refusal(alloc, hall, HELLO, 0, is_there);
    let (reply, was_none) = answer_with_refusal(alloc, hall, MOVE, nth, is_there)?;
    let found = grant_of(hall, reply.as_slice())?;
    let is_so = found != Grant::Halted || stays_halted(alloc, hall, is_there);
    is_so.then_some((found, was_none))
}

/// Makes a new hall over the path of three, and calls `grant_in` for it: ana moves node 1 while the nth request for
/// memory is refused. Returns what `grant_in` returns.
fn grant_in_new_hall(
    alloc: Global,
    nth: usize,
    is_there: bool,
) -> Result<Option<(Grant, bool)>, Fail> {
    let lab = read_lab(alloc, PATH_OF_THREE.as_bytes())?;
    let mut hall = Hall::new(alloc, lab, MemorySink::new(alloc, None))?;
    Ok(grant_in(alloc, &mut hall, nth, is_there))
}

/// Moves node 1 in one new hall after another until the move is granted. In the nth hall, the nth request for memory is
/// refused. Returns in how many halls the move was refused as `memory`, and in how many the journal was halted. Returns
/// `None` if the move wasn't granted in any of `MOST` - 1 halls, or an outcome was wrong. An outcome is also wrong if
/// the move was granted though a request was refused, or the other way round.
fn results_of_grants(alloc: Global, is_there: bool) -> Result<Option<(usize, usize)>, Fail> {
    let (mut refused, mut halted) = (0usize, 0usize);
    for nth in 1..MOST {
        match grant_in_new_hall(alloc, nth, is_there)? {
            Some((Grant::Made, true)) => return Ok(Some((refused, halted))),
            Some((Grant::Refused, false)) => refused = refused.saturating_add(1),
            Some((Grant::Halted, false)) => halted = halted.saturating_add(1),
            _ => return Ok(None),
        }
    }
    Ok(None)
}

/// Checks a move while one request for memory after another is refused. Exactly one refusal, of the sink's own request,
/// must halt the journal, and at least one other must leave the hall unchanged. Without the library that refuses
/// requests, the move must be granted at once.
#[test]
fn refusals_of_a_sink_halt(rt: HostRuntime) -> Result<(), Fail> {
    let is_there = is_there(rt.alloc());
    let told = results_of_grants(rt.alloc(), is_there)?;
    // The list of events and the line request memory before the sink does.
    assert_eq!(rt;
        told.map(|(refused, halted)| (refused > 0, halted)),
        Some((is_there, usize::from(is_there)))
    );
    Ok(())
}
