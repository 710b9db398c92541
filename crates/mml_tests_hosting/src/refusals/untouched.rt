//! Tests of calls that request no memory: views, and acts that are denied, exceed the limit of events, or come when
//! the journal is halted. An error (`Fail`) means that a house couldn't be opened because memory ran out.
//!
//! An act is a request for an event. A view is what a see, a look or a report shows. The place of an event is its
//! number in the list of events, from 1. The stored run has ten acts, over the path of three: nodes 1, 2 and 3 in a
//! row. A house is one run of a lab that threads share. A window is one session's view of the published events. A
//! sink is the destination of the journal's bytes, and a put is a write to it. The journal is halted if a put has
//! failed. A visit is what a test does through two windows of a house. The type `H` is the name of a house, and only
//! contracts use it. The library counts requests for memory. If it isn't loaded (`is_there` is `false`), only answers
//! are checked.
use super::library::{is_there, refuse, was_none_made};
use mml_fakes::labs::PATH_OF_THREE;
use mml_fakes::ten_acts::{act, asker};
use mml_fakes::{Pair, Visit, WindowAtDesk, visit_lab};
use mml_journal::MemorySink;
use mml_lab::Who;
use mml_window::{Answer, House, Refusal};
use std::alloc::Global;
use std::sync::Wait;
use std::test::Fail;

/// Asks through the window for the act of the stored run at this place. Returns whether the act is refused as `wanted`,
/// or denied if `wanted` is `None`, and no memory was requested meanwhile.
fn takes_none<H: House, R: Wait>(
    at_desk: &mut WindowAtDesk<'_, MemorySink, H, R>,
    place: u64,
    wanted: Option<Refusal>,
    is_there: bool,
) -> bool {
    refuse(at_desk.alloc, 0);
    let answer = at_desk.ask(asker(place), &act(place));
    let is_none = was_none_made(at_desk.alloc) == is_there;
    match answer {
        Answer::Granted { .. } => false,
        Answer::Denied(_) => is_none && wanted.is_none(),
        Answer::Refused(refusal) => is_none && wanted == Some(refusal),
    }
}

/// Reads through the window the number of the configuration, and then the teacher's see of node 2. Returns whether the
/// number is 0, the see succeeds, and no memory was requested meanwhile.
fn views_take_none<H: House, R: Wait>(
    at_desk: &mut WindowAtDesk<'_, MemorySink, H, R>,
    is_there: bool,
) -> bool {
    refuse(at_desk.alloc, 0);
    let number = at_desk.window.number();
    let see = at_desk.window.see(Who::Teacher, 2);
    was_none_made(at_desk.alloc) == is_there && number == Ok(0) && see.is_ok()
}

/// A visit that asks for the first two acts, and then makes the calls that should request no memory. `wanted` is the
/// refusal that the second act should get when it is asked for again. `is_there` says whether the library that counts
/// requests is loaded.
#[derive(Clone, Copy)]
struct AfterFirst {
    wanted: Refusal,
    is_there: bool,
}

impl Visit<MemorySink> for AfterFirst {
    /// Whether all answers were right, and no memory was requested after the first two.
    type Outcome = bool;

    // Asks through the first window for the first act and the second. Then asks for both again, and for the views.
    // Returns whether all answers are right, and no memory was requested after the first two. The first act must be
    // granted, and denied when it is asked for again. The second act must be refused both times, and then as `wanted`.
    fn visit<H: House, R: Wait>(self, pair: &mut Pair<'_, MemorySink, H, R>) -> bool {
        let (at_desk, is_there) = (&mut pair.one, self.is_there);
        let first = at_desk.ask(asker(1), &act(1));
        // If the sink fails at its second put, it fails here, before the calls that should take no memory.
        let second = at_desk.ask(asker(2), &act(2));
        matches!(first, Answer::Granted { .. })
            && matches!(second, Answer::Refused(_))
            && takes_none(at_desk, 1, None, is_there)
            && takes_none(at_desk, 2, Some(self.wanted), is_there)
            && views_take_none(at_desk, is_there)
    }
}

/// Makes the visit `AfterFirst` in a house over the path of three. The text `events` replaces the line of the lab file
/// with the limit of events. The sink fails from its put number `fail_at` on, or never if that is `None`. Returns the
/// outcome of the visit: whether all answers are right, and no memory was requested after the first two. Returns `None`
/// if there were fewer than two windows, or memory ran out before both were put back.
fn takes_none_after_first<R: Wait>(
    rt: &R,
    alloc: Global,
    events: &str,
    fail_at: Option<u64>,
    wanted: Refusal,
    is_there: bool,
) -> Result<Option<bool>, Fail> {
    let file = PATH_OF_THREE.replacen(alloc, "events = 100", events, 1)?;
    let (hold, _) = visit_lab(
        rt,
        alloc,
        file.as_str(),
        MemorySink::new(alloc, fail_at),
        AfterFirst { wanted, is_there },
    )?;
    Ok(hold)
}

/// Checks that a denied act, a refused act and views get the right answers, and request no memory. The visit
/// `AfterFirst` asks for them, first in a house of a lab that allows one event, and then in one whose journal is halted
/// at the second event.
#[test]
fn refusals_that_take_no_memory(rt: HostRuntime) -> Result<(), Fail> {
    let is_there = is_there(rt.alloc());
    let full = takes_none_after_first(
        &rt,
        rt.alloc(),
        "events = 1",
        None,
        Refusal::Full,
        is_there,
    )?;
    let halted = takes_none_after_first(
        &rt,
        rt.alloc(),
        "events = 100",
        Some(2),
        Refusal::Journal,
        is_there,
    )?;
    assert_eq!(rt; (full, halted), (Some(true), Some(true)));
    Ok(())
}
