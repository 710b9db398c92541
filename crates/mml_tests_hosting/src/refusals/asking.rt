//! Tests that ask for the acts of a stored run through a window, while one request for memory after another is
//! refused. An error (`Fail`) means that a house couldn't be opened because memory ran out.
//!
//! An act is a request for an event. The place of an event is its number in the list of events, from 1. The stored run
//! has ten acts, over the path of three: nodes 1, 2 and 3 in a row. A house is one run of a lab that threads share. A
//! window is one session's view of the published events. A visit is what a test does through two windows of a house.
//! The type `H` is the name of a house, and only contracts use it. The parameter `is_there` of a function says
//! whether the library that refuses requests is loaded. An assertion inside a loop would need a loop invariant, so
//! loops are in functions whose result a test asserts.
use super::MOST;
use super::library::{is_there, refuse, was_none_refused};
use mml_fakes::ten_acts::{ACTS, act, asker, number_before};
use mml_fakes::{Ending, Pair, Visit, WindowAtDesk, ending_of, visit_path};
use mml_journal::NullSink;
use mml_window::{Answer, House, Refusal};
use std::alloc::Global;
use std::sync::Wait;
use std::test::Fail;

/// Returns `true` if an answer grants an act at this place. Returns `false` if the answer is that memory ran out, and a
/// request for memory was indeed refused (`was_none` is `false`). Returns `None` for any other answer.
fn granted_or_refused(answer: &Answer, place: u64, was_none: bool) -> Option<bool> {
    match answer {
        Answer::Granted { place: granted, .. } => (*granted == place).then_some(true),
        Answer::Refused(Refusal::Memory) => (!was_none).then_some(false),
        _ => None,
    }
}

/// Asks for the act of the stored run at this place, while the nth request for memory is refused. Returns `true` if the
/// act was granted at this place. Returns `false` if it was refused for memory, and the window's configuration is as
/// before. Returns `None` in any other case.
fn ask_with_refusal<H: House, R: Wait>(
    at_desk: &mut WindowAtDesk<'_, NullSink, H, R>,
    place: u64,
    nth: usize,
    is_there: bool,
) -> Option<bool> {
    refuse(at_desk.alloc, nth);
    let answer = at_desk.ask(asker(place), &act(place));
    let was_none = was_none_refused(at_desk.alloc, is_there);
    let is_granted = granted_or_refused(&answer, place, was_none)?;
    let is_kept = is_granted || at_desk.window.number() == Ok(number_before(place));
    is_kept.then_some(is_granted)
}

/// Asks for the act at this place until it is granted. In the nth try, the nth request for memory is refused. Returns
/// how often the act was refused. Returns `None` if an answer was wrong, or the act wasn't granted in any of `MOST` - 1
/// tries.
fn refusals_of<H: House, R: Wait>(
    at_desk: &mut WindowAtDesk<'_, NullSink, H, R>,
    place: u64,
    is_there: bool,
) -> Option<usize> {
    for nth in 1..MOST {
        if ask_with_refusal(at_desk, place, nth, is_there)? {
            return Some(nth - 1);
        }
    }
    None
}

/// A visit that asks for each of the ten acts until it is granted, while one request for memory after another is
/// refused. `is_there` says whether the library that refuses requests is loaded.
#[derive(Clone, Copy)]
struct Acts {
    is_there: bool,
}

impl Visit<NullSink> for Acts {
    /// How often acts were refused altogether, or `None` if an act was answered wrongly or never granted.
    type Outcome = Option<usize>;

    // Asks for the ten acts in their order through the first window. Returns how often they were refused altogether, or
    // `None` if an act was answered wrongly or never granted.
    fn visit<H: House, R: Wait>(self, pair: &mut Pair<'_, NullSink, H, R>) -> Option<usize> {
        let mut refused = 0usize;
        for place in 1..=ACTS {
            let more = refusals_of(&mut pair.one, place, self.is_there)?;
            refused = refused.saturating_add(more);
        }
        Some(refused)
    }
}

/// Makes the visit `Acts` over the path of three. Returns how often the ten acts were refused altogether. Returns
/// `None` if an act was answered wrongly, or the house didn't end with ten events in configuration 4.
fn results_of_acts<R: Wait>(rt: &R, alloc: Global, is_there: bool) -> Result<Option<usize>, Fail> {
    let (refused, end) = visit_path(rt, alloc, NullSink::new(), Acts { is_there })?;
    let wanted = Ending::Log {
        events: 10,
        number: 4,
        halted: false,
    };
    Ok(refused.flatten().filter(|_| ending_of(&end) == wanted))
}

/// A visit that asks for two acts. While the first is answered, the nth request for memory is refused; while the second
/// is answered, none is refused. `is_there` says whether the library that refuses requests is loaded.
#[derive(Clone, Copy)]
struct FirstThenSecond {
    nth: usize,
    is_there: bool,
}

impl Visit<NullSink> for FirstThenSecond {
    /// Whether the first act was granted; `false` if it was refused for memory. `None` if it was answered otherwise, or
    /// the second act wasn't granted at the next place.
    type Outcome = Option<bool>;

    // Asks for both acts through the first window. Returns `true` if the first was granted, and `false` if it was
    // refused for memory. Returns `None` if the first was answered otherwise, or the second wasn't granted at the next
    // place. This place is 2 if the first was granted, and otherwise 1.
    fn visit<H: House, R: Wait>(self, pair: &mut Pair<'_, NullSink, H, R>) -> Option<bool> {
        let at_desk = &mut pair.one;
        let was_granted = ask_with_refusal(at_desk, 1, self.nth, self.is_there)?;
        let second = at_desk.ask(asker(2), &act(2));
        let next = if was_granted { 2 } else { 1 };
        (granted_or_refused(&second, next, true) == Some(true)).then_some(was_granted)
    }
}

/// Makes the visit `FirstThenSecond` in a new house over the path of three: the nth request for memory of its first
/// act is refused. Returns whether the first act was granted; `false` if it was refused for memory. Returns `None` if
/// an act was answered wrongly, or the house didn't end with exactly the granted acts.
fn was_first_granted<R: Wait>(
    rt: &R,
    alloc: Global,
    nth: usize,
    is_there: bool,
) -> Result<Option<bool>, Fail> {
    let (told, end) = visit_path(
        rt,
        alloc,
        NullSink::new(),
        FirstThenSecond { nth, is_there },
    )?;
    let Some(was_granted) = told.flatten() else {
        return Ok(None);
    };
    let wanted = Ending::Log {
        events: if was_granted { 2 } else { 1 },
        number: 0,
        halted: false,
    };
    Ok((ending_of(&end) == wanted).then_some(was_granted))
}

/// Makes the visit `FirstThenSecond` in one new house after another until the first act is granted. In the nth house,
/// the nth request for memory of this act is refused. Returns how often the first act was refused. Returns `None` if
/// `was_first_granted` returned `None` for a house, or the act wasn't granted in any of `MOST` - 1 houses.
fn refusals_of_first<R: Wait>(
    rt: &R,
    alloc: Global,
    is_there: bool,
) -> Result<Option<usize>, Fail> {
    for nth in 1..MOST {
        match was_first_granted(rt, alloc, nth, is_there)? {
            Some(true) => return Ok(Some(nth - 1)),
            Some(false) => (),
            None => return Ok(None),
        }
    }
    Ok(None)
}

/// Checks that an act for which a request for memory is refused is either granted, or refused for memory without
/// leaving a trace. If the library that refuses requests is loaded, at least one act must be refused, and otherwise
/// none.
#[test]
fn refusals_of_an_act_lose_nothing(rt: HostRuntime) -> Result<(), Fail> {
    let is_there = is_there(rt.alloc());
    let same = results_of_acts(&rt, rt.alloc(), is_there)?;
    let another = refusals_of_first(&rt, rt.alloc(), is_there)?;
    assert_eq!(rt;
        (same.map(|count| count > 0), another.map(|count| count > 0)),
        (Some(is_there), Some(is_there))
    );
    Ok(())
}
