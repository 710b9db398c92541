//! Tests of a house over a sink that stores one byte in each put, and fails after each possible number of bytes. An
//! error (`Fail`) means that memory ran out.
//!
//! An act is a request for an event. The place of an event is its number in the list of events, from 1. The ten acts
//! are those of a stored run over the path of three: nodes 1, 2 and 3 in a row. A house is one run of a lab that
//! threads share. A window is one session's view of the published events. The journal is halted if a line couldn't be
//! written to it. A visit is what a test does through two windows of a house. The type `H` is the name of a house,
//! and only contracts use it. A sink is the destination of the journal's bytes, and a put is a write to it. An
//! assertion inside a loop would need a loop invariant, so loops are in functions whose result a test asserts.
use mml_fakes::scripts::{TEN_LINES, ended_lines};
use mml_fakes::ten_acts::{ACTS, act, asker, number_before};
use mml_fakes::{Drip, Ending, Pair, Visit, WindowAtDesk, ending_of, visit_path};
use mml_window::{Answer, Astray, House, Log, Refusal};
use std::alloc::Global;
use std::sync::Wait;
use std::test::Fail;

/// Returns whether an answer to the act at this place is right, if the sink fails at the line of event `last`. Acts at
/// places before `last` must be granted at their places. The act at place `last` must be refused with `Journal`, and
/// later acts must be denied, or refused with `Journal`.
fn is_right_answer(answer: &Answer, place: u64, last: u64) -> bool {
    match answer {
        Answer::Granted { place: granted, .. } => place < last && *granted == place,
        Answer::Denied(_) => place > last,
        Answer::Refused(refusal) => place >= last && *refusal == Refusal::Journal,
    }
}

/// Asks for the ten acts in their order, in a house whose sink fails at the line of event `last`. Returns whether each
/// answer is right. After each answer, the window must show the number of the configuration to which the granted acts
/// lead.
fn answers_ten_acts<H: House, R: Wait>(
    at_desk: &mut WindowAtDesk<'_, Drip, H, R>,
    last: u64,
) -> bool {
    for place in 1..=ACTS {
        let answer = at_desk.ask(asker(place), &act(place));
        // The configuration after this act is the one before the next, as long as acts are granted.
        let number = number_before(last.min(place.saturating_add(1)));
        if !is_right_answer(&answer, place, last) || at_desk.window.number() != Ok(number) {
            return false;
        }
    }
    true
}

/// A visit that asks for all ten acts. The sink fails at the line of event `last`, or never if that is 11.
#[derive(Clone, Copy)]
struct Acts {
    last: u64,
}

impl Visit<Drip> for Acts {
    /// Whether each act was answered rightly.
    type Outcome = bool;

    // Asks for the ten acts through the first window, and returns whether each was answered rightly.
    fn visit<H: House, R: Wait>(self, pair: &mut Pair<'_, Drip, H, R>) -> bool {
        answers_ten_acts(&mut pair.one, self.last)
    }
}

/// Returns how a house must end after all ten acts were asked for in it. The house's sink fails at the line of event
/// `last`, or never if that is 11.
fn ending_at(last: u64) -> Ending {
    Ending::Log {
        events: last.saturating_sub(1) as usize,
        number: number_before(last),
        halted: last <= ACTS,
    }
}

/// Returns whether a house has left a log whose sink has exactly the bytes `wanted`. One put must have failed if the
/// journal was halted, and otherwise none.
fn has_dripped(end: &Result<Log<Drip>, Astray>, wanted: &[u8]) -> bool {
    match end {
        Ok(log) => {
            log.sink.bytes.as_slice() == wanted && log.sink.failures == u64::from(log.halted)
        }
        Err(_) => false,
    }
}

/// Asks for the ten acts in a house whose sink stores `puts` bytes and then fails. Returns whether the acts are
/// answered rightly, and the sink has exactly the first `puts` bytes of their journal. The house must have one event
/// for each whole line in these bytes.
fn fails_rightly_after<R: Wait>(rt: &R, alloc: Global, puts: usize) -> Result<bool, Fail> {
    let (wanted, _) = TEN_LINES.as_bytes().split_at(puts.min(TEN_LINES.len()));
    let last = (ended_lines(wanted) as u64).saturating_add(1);
    let (visited, end) = visit_path(rt, alloc, Drip::failing_after(puts, alloc), Acts { last })?;
    Ok(visited == Some(true) && ending_of(&end) == ending_at(last) && has_dripped(&end, wanted))
}

/// Returns the first number of bytes, from 0 to all of the journal of the ten acts, for which `fails_rightly_after` is
/// `false`, or `None` if there is no such number.
fn first_other_count<R: Wait>(rt: &R, alloc: Global) -> Result<Option<usize>, Fail> {
    for puts in 0..=TEN_LINES.len() {
        if !fails_rightly_after(rt, alloc, puts)? {
            return Ok(Some(puts));
        }
    }
    Ok(None)
}

/// Checks a house whose sink fails after each possible number of bytes of the journal: its answers, the bytes in the
/// sink, and the events.
#[test]
fn each_byte_of_a_house_may_be_the_last(rt: HostRuntime) -> Result<(), Fail> {
    assert_eq!(rt; first_other_count(&rt, rt.alloc())?, None);
    Ok(())
}
