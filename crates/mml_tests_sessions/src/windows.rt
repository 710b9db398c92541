//! Tests of the windows of one house in one thread, also if some are missing at its end. An error (`Fail` or
//! `Memory`) means that memory ran out.
//!
//! A house is one run of a lab that threads share. A window is one session's view of the published events. A visit is
//! what a test does through two windows of a house. The type `H` is the name of a house, and only contracts use it. The
//! book of a house has its events and their journal, and the desk is the book with its lock. The place of an event is
//! its number in the list of events, from 1. A sink is the destination of the journal's bytes.
ghost use Rattle.std.specs.Prelude.{◌≡◌, length};
ghost use Rattle.mml_window.specs.Houses.{house_of};

use mml_board::Done;
use mml_fakes::scripts::CLOSED_JOURNAL;
use mml_fakes::{
    Ending, Pair, Visit, WindowAtDesk, ending_of, has_journal, is_first_close, open_path,
    seduction, student, visit_windows,
};
use mml_ids::{Memory, Rank};
use mml_journal::MemorySink;
use mml_lab::Who;
use mml_policy::{Command, Denial};
use mml_rules::Kind;
use mml_window::{Answer, Astray, Blank, Book, Brand, Closed, House, Refusal, SightFault, Window};
use std::alloc::Global;
use std::sync::Wait;
use std::test::Fail;

/// Asks for a move of node 1 through the second window, and then for the teacher's close through the first one. Returns
/// whether both are granted, at places 1 and 2.
fn grants_both<H: House, R: Wait>(pair: &mut Pair<'_, MemorySink, H, R>) -> bool {
    let granted = pair.two.ask(student(0), &seduction(1, 0));
    let closed = pair.one.ask(Who::Teacher, &Command::Close);
    is_first_move(&granted) && is_first_close(&closed)
}

/// Returns whether an answer grants the move of node 1 as the first event.
fn is_first_move(answer: &Answer) -> bool {
    match answer {
        Answer::Granted {
            place: 1,
            number: 0,
            done: Done::Move { node, kind },
        } => node.index() == 0 && *kind == Kind::Seduction,
        _ => false,
    }
}

/// Returns whether the teacher's window shows configuration 1, in which node 1 points at node 2, and all three nodes
/// are free. For that, asks for the number of the configuration, a see, a student's look and a report.
fn sees_the_close<H: House, R: Wait>(teacher: &mut WindowAtDesk<'_, MemorySink, H, R>) -> bool {
    let number = teacher.window.number() == Ok(1);
    let see = match teacher.window.see(Who::Teacher, 1) {
        Ok(see) => see.at == 1 && see.regs.p == Some(Rank::at(1)),
        Err(_) => false,
    };
    let look = match teacher.window.look(teacher.alloc, student(0), 1) {
        Ok(look) => look.at == 1 && look.regs.p == Some(Rank::at(1)),
        Err(_) => false,
    };
    let report = match teacher.window.report(teacher.alloc, Who::Teacher) {
        Ok(report) => report.at == 1 && report.free.as_slice().len() == 3,
        Err(_) => false,
    };
    number && see && look && report
}

/// Returns whether ana's window shows configuration 1, which the close through the other window has made. The move that
/// was asked for through ana's window must now be denied as stale.
fn meets_the_close<H: House, R: Wait>(ana: &mut WindowAtDesk<'_, MemorySink, H, R>) -> bool {
    let number = ana.window.number() == Ok(1);
    let answer = ana.ask(student(0), &seduction(1, 0));
    number && matches!(answer, Answer::Denied(Denial::Stale(1)))
}

/// A visit in which ana's move is asked for through the second window, and then the teacher's close through the first.
#[derive(Clone, Copy)]
struct MoveAndClose;

impl Visit<MemorySink> for MoveAndClose {
    /// Whether both acts are granted, and both windows then show the new configuration.
    type Outcome = bool;

    // Asks for the move and the close, checks the views through the first window, and asks for the move again through
    // the second. Returns whether all is as it should be.
    fn visit<H: House, R: Wait>(self, pair: &mut Pair<'_, MemorySink, H, R>) -> bool {
        grants_both(pair) && sees_the_close(&mut pair.one) && meets_the_close(&mut pair.two)
    }
}

/// Returns whether there are exactly four windows, and each shows the configuration with this number.
fn are_at<H: House>(windows: &mut [Window<H>], number: u64) -> bool {
    let mut count = 0usize;
    for window in windows.iter_mut() {
        if window.number() != Ok(number) {
            return false;
        }
        count = count.saturating_add(1);
    }
    count == 4
}

/// The result of a house in which a move and a close were asked for through two of its windows.
#[derive(Clone, Copy, Debug, PartialEq, Eq)]
struct HouseResult {
    /// Whether the visit went well.
    is_visited: bool,
    /// Whether all windows show number 0 before the visit and number 1 after it.
    are_shown: bool,
    ending: Ending,
    /// Whether the house has left a log, and its sink has exactly `CLOSED_JOURNAL`.
    has_journal: bool,
}

/// Starts the house `blank`, whose name is `H`, makes the visit `MoveAndClose`, and ends the house. If `with_all` is
/// set, ends it with all its windows, and otherwise without the last one, through which ana moved. Returns the result,
/// or `Memory` if memory runs out.
fn in_house<H: House, R: Wait>(
    rt: &R,
    alloc: Global,
    blank: Blank<MemorySink>,
    with_all: bool,
) -> Result<HouseResult, Memory>
    requires { blank ≡ house_of H.name H.lab }
{
    let (desk, mut windows) = blank.start::<H>(alloc)?;
    let is_before = are_at(&mut windows, 0);
    let visited = visit_windows(rt, alloc, &desk, &mut windows, MoveAndClose);
    let is_after = are_at(&mut windows, 1);
    if !with_all {
        windows.pop();
    }
    let end = desk.finish(rt, windows);
    Ok(HouseResult {
        is_visited: visited == Some(true),
        are_shown: is_before && is_after,
        ending: ending_of(&end),
        has_journal: has_journal(&end, CLOSED_JOURNAL),
    })
}

/// Does what `in_house` does, in a new house over the path of three, and returns its result. Returns an error if memory
/// runs out.
fn ended_with<R: Wait>(rt: &R, alloc: Global, with_all: bool) -> Result<HouseResult, Fail> {
    let blank = open_path(rt, alloc, None)?;
    Ok(in_house::<Brand, _>(rt, alloc, blank, with_all)?)
}

/// Returns the result of a house in which the visit went well and the windows showed the right numbers, and which has
/// ended as `ending`. `has_journal` says whether the house has left the journal `CLOSED_JOURNAL`.
fn good_result(ending: Ending, has_journal: bool) -> HouseResult {
    HouseResult {
        is_visited: true,
        are_shown: true,
        ending,
        has_journal,
    }
}

/// Checks that a house that ends with all its windows leaves a log, and one that ends without the window of a granted
/// move doesn't.
#[test]
fn a_house_ends_with_all_its_windows(rt: HostRuntime) -> Result<(), Fail> {
    let all = ended_with(&rt, rt.alloc(), true)?;
    let fewer = ended_with(&rt, rt.alloc(), false)?;
    let log = Ending::Log {
        events: 2,
        number: 1,
        halted: false,
    };
    let astray = Ending::Astray(Astray { told: 1, found: 2 });
    assert_eq!(rt;
        (all, fewer),
        (good_result(log, true), good_result(astray, false))
    );
    Ok(())
}

/// Returns whether a window is closed: asking for the number of its configuration, a see, a look and a report all
/// return `Closed`.
fn is_closed<H: House>(alloc: Global, window: &mut Window<H>) -> bool {
    let see = window.see(Who::Teacher, 1);
    let look = window.look(alloc, Who::Teacher, 1);
    let report = window.report(alloc, Who::Teacher);
    window.number() == Err(Closed)
        && matches!(see, Err(SightFault::Closed))
        && matches!(look, Err(SightFault::Closed))
        && matches!(report, Err(SightFault::Closed))
}

/// Starts the house `blank`, whose name is `H`, and ends it without one of its windows, which was never used. Returns
/// whether that window is closed then (`None` if there was no window), and how the house has ended. Returns `Memory` if
/// memory runs out.
fn is_closed_after<H: House, R: Wait>(
    rt: &R,
    alloc: Global,
    blank: Blank<MemorySink>,
) -> Result<(Option<bool>, Ending), Memory>
    requires { blank ≡ house_of H.name H.lab }
{
    let (desk, mut windows) = blank.start::<H>(alloc)?;
    let mut kept = windows.pop();
    let ending = ending_of(&desk.finish(rt, windows));
    let is_closed = kept.as_mut().map(|window| is_closed(alloc, window));
    Ok((is_closed, ending))
}

/// Checks that a window shows nothing any more after its house has ended without it, and that the house's log is empty.
#[test]
fn a_window_that_outlives_its_house_is_closed(rt: HostRuntime) -> Result<(), Fail> {
    let blank = open_path(&rt, rt.alloc(), None)?;
    let found = is_closed_after::<Brand, _>(&rt, rt.alloc(), blank)?;
    let wanted = Ending::Log {
        events: 0,
        number: 0,
        halted: false,
    };
    assert_eq!(rt; found, (Some(true), wanted));
    Ok(())
}

/// Asks a book, whose sink fails at its second line, for three moves. Returns whether the first is granted, the second
/// is refused with `Journal`, and the third, which is the first again, is denied as chosen. The book must then have one
/// event.
fn refuses_the_second<H: House, R: Wait>(
    rt: &R,
    alloc: Global,
    book: &mut Book<MemorySink, H>,
) -> bool {
    let first = book.decide(rt, alloc, student(0), &seduction(1, 0));
    let second = book.decide(rt, alloc, student(1), &seduction(2, 0));
    let denied = book.decide(rt, alloc, student(0), &seduction(1, 0));
    is_first_move(&first)
        && matches!(second, Answer::Refused(Refusal::Journal))
        && matches!(denied, Answer::Denied(Denial::Chosen))
        && book.events().len() == 1
}

/// Starts the house `blank`, whose name is `H` and whose sink fails at its second line, and takes the book out of it.
/// Returns the result of `refuses_the_second` for the book, and how the house has ended. No event was granted through
/// the windows of this house, so they have no places. The 0 that `finish_from` gets says that no event came before the
/// house was opened. Returns `Memory` if memory runs out.
fn decides_alone<H: House, R: Wait>(
    rt: &R,
    alloc: Global,
    blank: Blank<MemorySink>,
) -> Result<(bool, Ending), Memory>
    requires { blank ≡ house_of H.name H.lab }
{
    let (desk, windows) = blank.start::<H>(alloc)?;
    let mut book = desk.into_book();
    let holds = refuses_the_second(rt, alloc, &mut book);
    Ok((holds, ending_of(&book.finish_from(rt, windows, 0))))
}

/// Checks a book without its lock, whose sink fails at the second line: it grants a move, refuses another one with
/// `Journal`, and denies the first one when it is asked again (`refuses_the_second`). Also checks that the house leaves
/// no log, since no window has the place of the granted move.
#[test]
fn a_book_decides_alone(rt: HostRuntime) -> Result<(), Fail> {
    let blank = open_path(&rt, rt.alloc(), Some(2))?;
    let found = decides_alone::<Brand, _>(&rt, rt.alloc(), blank)?;
    let wanted = Ending::Astray(Astray { told: 0, found: 1 });
    assert_eq!(rt; found, (true, wanted));
    Ok(())
}
