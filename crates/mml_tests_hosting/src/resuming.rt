//! Tests of classes that are resumed from a journal, or refused.
//!
//! The host has two ports: the desk, which is the teacher's, and the students' port. A sink is the destination of the
//! journal's bytes, and a store returns the sink that appends to an old journal. A line is torn if its end is
//! missing. Each function that returns a `Fail` does so if memory runs out.
ghost use Rattle.std.specs.Prelude.{◌≡◌, ◌<◌, ◌-◌, ◌^◌, IfSome};

use crate::texts::{Count, Left, TextClass, Texts, Timed, cycle_of_six, sent_to};
use mml_audit::AuditFault;
use mml_fakes::lines;
use mml_fakes::scripts::CLOSED_JOURNAL;
use mml_hosting::no_observers;
use mml_journal::{MemorySink, Sink};
use mml_lab::Lab;
use mml_policy::Denial;
use mml_resuming::{ResumeFault, Store, resume_class};
use std::alloc::Global;
use std::sync::Wait;
use std::test::Fail;
use std::thread::Threads;

/// An old journal whose last line is torn: ana's move was granted, and ben's line was being written.
const OLD: &str = "1 0 grant ana 1 seduction\n2 0 gra";

/// Ana connects again. She asks for the move that is chosen already, for a move in a configuration that isn't the
/// current one, and for a look at her node.
const ANA: &str = lines!(
    hello("ana", "a-key"),
    seduction(1),
    r#"{"at":7,"do":"move","node":1,"rule":"seduction"}
{"do":"look","node":1}
"#
);

/// The replies to `ANA` in a class that is resumed from `OLD`.
const ANA_IS_TOLD: &str = lines!(
    welcome("ana"),
    chosen,
    stale(0),
    r#"{"at":0,"chosen":"seduction","m":false,"near":[{"m":false,"node":2,"p":null},{"m":false,"node":6,"p":null}],"node":1,"ok":"look","p":null,"rule":"seduction"}
"#
);

/// The teacher's hello, two closes, and a bye.
const TESS: &str = lines!(hello("tess", "chalk"), close, close, bye);

/// The replies to `TESS`: the first close applies ana's move, and at the second no node is chosen.
const TESS_IS_TOLD: &str = lines!(welcome("tess"), closed, empty, left);

/// The text that a class prints first.
const FIRST: &str = "listening\n";

/// What a class that is resumed from `OLD` should print.
const TOLD: &str = "listening
resumed at place 1, configuration 0, 1 chosen
done: 2 events, configuration 1
";

/// A journal whose last line is torn and longer than an event's line can be.
const LONG: &str = "1 0 grant ana 1 seduction
2 0 close and more and more and more and more and more and more and more and more and more and more and more.";

/// The store of an old journal, for tests. The store has only the allocator, since the journal is in memory.
#[derive(Drop)]
struct Shelf(Global);

impl Store<MemorySink> for Shelf {
    // Returns a new sink in memory that has the bytes `whole`, which are the whole lines of the old journal. If `whole`
    // is empty, puts nothing, since a put needs at least one byte. Returns `None` if memory runs out.
    fn shorten_to(self, whole: &[u8]) -> Option<MemorySink>
        ensures holds { IfSome result (λ sink. sink.bytes ≡ whole.now) }
        ensures countable { IfSome result (λ sink. sink.failures < 2 ^ 64 - 1) }
    {
        let mut sink = MemorySink::new(self.0, None);
        if whole.is_empty() {
            return Some(sink);
        }
        match sink.put(whole) {
            Ok(_) => Some(sink),
            Err(_) => None,
        }
    }
}

/// Resumes a class from the journal `old`, over a cycle of six nodes, with this limit of `events`. Ana connects to the
/// students' port and, when she has left, the teacher connects to the desk. What the class prints is appended to `out`.
/// Returns the result of the class, or its fault. Returns an error (`Fail`) if memory runs out.
fn resume<R: Threads + Wait + Sync>(
    rt: &R,
    alloc: Global,
    events: u64,
    old: &str,
    out: &mut Vec<u8>,
) -> Result<Result<Left, ResumeFault>, Fail> {
    let count = Count::new();
    let tess = Timed {
        after: 1,
        number: 0,
        text: TESS,
    };
    let ana = Timed {
        after: 0,
        number: 1,
        text: ANA,
    };
    let at_desk = Texts::of(alloc, &[tess], &count)?;
    let at_port = Texts::of(alloc, &[ana], &count)?;
    let lab = cycle_of_six(alloc, events)?;
    Ok(resume_in(rt, alloc, lab, old, at_desk, at_port, &count, out))
}

/// Resumes a class of this lab from the journal `old`, with the connections `at_desk` and `at_port`, and no record.
/// `count` counts the sessions that have ended. What the class prints is appended to `out`. Returns the result of the
/// class, or its fault.
fn resume_in<'a, R: Threads + Wait + Sync>(
    rt: &'a R,
    alloc: Global,
    lab: Lab,
    old: &str,
    at_desk: Texts<'a>,
    at_port: Texts<'a>,
    count: &Count,
    out: &mut Vec<u8>,
) -> Result<Left, ResumeFault> {
    let Ok(observers) = no_observers(alloc, &lab) else {
        return Err(ResumeFault::Memory);
    };
    resume_class::<TextClass<'a, R>, _, _>(
        rt,
        alloc,
        lab,
        old.as_bytes(),
        Shelf(alloc),
        FIRST.as_bytes(),
        observers,
        at_desk,
        at_port,
        count,
        out,
    )
}

/// Resumes a class from the journal `old`, with this limit of `events`. Returns the fault of the class, or `None` if it
/// ended well. Also returns whether nothing was printed.
fn fault_of_class<R: Threads + Wait + Sync>(
    rt: &R,
    alloc: Global,
    events: u64,
    old: &str,
) -> Result<(Option<ResumeFault>, bool), Fail> {
    let mut out = Vec::new(alloc);
    let fault = resume(rt, alloc, events, old, &mut out)?.err();
    Ok((fault, out.is_empty()))
}

/// Resumes a class from `OLD`. Returns four answers: whether ana's replies are `ANA_IS_TOLD`, the teacher's replies
/// `TESS_IS_TOLD`, the journal `CLOSED_JOURNAL`, and the printed text `TOLD`. Returns an error if the class failed.
fn results_of_a_class<R: Threads + Wait + Sync>(rt: &R, alloc: Global) -> Result<[bool; 4], Fail> {
    let mut out = Vec::new(alloc);
    match resume(rt, alloc, 100, OLD, &mut out)? {
        Ok(left) => {
            let is_ana_told = sent_to(&left, 1) == Some(ANA_IS_TOLD.as_bytes());
            let is_tess_told = sent_to(&left, 0) == Some(TESS_IS_TOLD.as_bytes());
            let is_journal = left.log.sink.bytes() == CLOSED_JOURNAL.as_bytes();
            let is_told = out.as_slice() == TOLD.as_bytes();
            Ok([is_ana_told, is_tess_told, is_journal, is_told])
        }
        Err(_) => Err(Fail::from("a fault")),
    }
}

/// Checks a class that is resumed from `OLD`, a journal that has ana's move and then a torn line. Ana's move must still
/// be chosen, and the teacher's first close must apply it. The line of this close must replace the torn line in the
/// journal. The printed text must say after how many events the class goes on.
#[test]
fn a_class_goes_on_where_its_journal_stopped(rt: HostRuntime) -> Result<(), Fail> {
    assert_eq!(rt; results_of_a_class(&rt, rt.alloc())?, [true; 4]);
    Ok(())
}

/// Returns whether a class is refused that should be resumed from the journal `old`, with this limit of `events`. The
/// reason must be `wanted`, and nothing may be printed.
fn is_refused<R: Threads + Wait + Sync>(
    rt: &R,
    alloc: Global,
    events: u64,
    old: &str,
    wanted: AuditFault,
) -> Result<bool, Fail> {
    Ok(fault_of_class(rt, alloc, events, old)? == (Some(ResumeFault::Refused(wanted)), true))
}

/// Returns for each of three journals whether it is refused for the right reason. The first has an illegal event, the
/// second more events than the limit, and the third ends with a torn line that is too long.
fn are_refused<R: Threads + Wait + Sync>(rt: &R, alloc: Global) -> Result<[bool; 3], Fail> {
    let illegal = AuditFault::Illegal(1, Denial::Empty);
    let is_empty = is_refused(rt, alloc, 100, "1 0 close\n", illegal)?;
    let is_long = is_refused(rt, alloc, 1, CLOSED_JOURNAL, AuditFault::Full(2))?;
    let is_torn = is_refused(rt, alloc, 100, LONG, AuditFault::Torn(2))?;
    Ok([is_empty, is_long, is_torn])
}

/// Checks that a class isn't resumed from a journal with an illegal event, with too many events, or with a torn line
/// that is too long. Such a class must be refused for the right reason, and print nothing.
#[test]
fn what_is_no_journal_is_refused(rt: HostRuntime) -> Result<(), Fail> {
    assert_eq!(rt; are_refused(&rt, rt.alloc())?, [true; 3]);
    Ok(())
}
