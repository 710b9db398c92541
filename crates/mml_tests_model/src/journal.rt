//! Tests of reading and writing a journal's lines: lines of events, which need not be legal, and lines that aren't
//! those of an event. An error means that memory ran out.
//!
//! `TEN_LINES` is the journal of a stored run over the path of three: nodes 1, 2 and 3 in a row.
mod replaced;

use mml_board::Event;
use mml_fakes::labs::{PATH_OF_THREE, boxed_lab};
use mml_ids::{Memory, Rank};
use mml_journal::{JournalFault, event_text, read_event};
use mml_lab::{Lab, Student};
use mml_rules::{Regs, Rule};
use std::alloc::Global;
use std::test::Fail;

/// Returns the event of a move at a node by this rule, for the student with the index `student`, who needn't own the
/// node.
fn grant(student: u16, node: Rank, rule: Rule) -> Event {
    Event::Grant {
        who: Student::new(student),
        node,
        rule,
    }
}

/// Returns the reason why a line isn't that of an event of this lab, or `None` if it is.
fn journal_error_of(lab: &Lab, line: &[u8]) -> Option<JournalFault> {
    match read_event(line, lab.ids(), lab.roster()) {
        Ok(_) => None,
        Err(fault) => Some(fault),
    }
}

/// Lines that don't have the form of an event's line. The first of them is empty.
const SHAPES: &str = "
1 0
01 0 close
1 00 close
 1 0 close
1  0 close
1 0 close\x20
1 0 close 1
1 0 Close
1 0 close\r
+1 0 close
18446744073709551616 0 close
1 18446744073709551616 close
1 0 release -
1 0 release 01
1 0 grant Zoe 1 update
1 0 grant zoe 1 marriage
1 0 grant zoe 9 marriage 02
1 0 fault 9 - True
1 0 link 1";

/// Lines of events that name a student or a node that the lab doesn't have.
const UNKNOWNS: &str = "1 0 release 0
1 0 release 4
1 0 release 18446744073709551616
1 0 release 18446744073709551617
1 0 grant zoe 1 update
1 0 grant tess 1 update
1 0 fault 1 9 true
1 0 cut 1 4";

/// Returns whether each of these lines is rejected with the error `fault`.
fn have_fault(lab: &Lab, lines: &str, fault: JournalFault) -> bool {
    for line in lines.split('\n') {
        if journal_error_of(lab, line.as_bytes()) != Some(fault) {
            return false;
        }
    }
    true
}

/// Lines of the kinds of events that `TEN_LINES` lacks, and of a move by a student who doesn't own the node. The events
/// needn't be legal.
const OTHERS: [&[u8]; 6] = [
    b"18446744073709551615 18446744073709551615 release 3",
    b"0 0 fault 2 - true",
    b"1 0 fault 2 1 false",
    b"1 0 link 1 1",
    b"1 0 cut 3 1",
    b"1 0 grant ana 3 update",
];

/// Returns the events of the lines of `OTHERS`, in their order.
fn other_events() -> [Event; 6] {
    let (first, second, third) = (Rank::at(0), Rank::at(1), Rank::at(2));
    [
        Event::Release { node: third },
        Event::Fault {
            node: second,
            regs: Regs { p: None, m: true },
        },
        Event::Fault {
            node: second,
            regs: Regs {
                p: Some(first),
                m: false,
            },
        },
        Event::Link { a: first, b: first },
        Event::Cut { a: third, b: first },
        grant(0, third, Rule::Update),
    ]
}

/// Reads the event of a line, and makes the text of this event's line. Returns the event, and whether this text is the
/// line that was read. Returns `None` if the line isn't an event's.
fn read_and_written(
    alloc: Global,
    lab: &Lab,
    line: &[u8],
) -> Result<Option<(Event, bool)>, Memory> {
    let Ok((place, before, found)) = read_event(line, lab.ids(), lab.roster()) else {
        return Ok(None);
    };
    let text = event_text(alloc, place, before, &found, lab.ids(), lab.roster())?;
    Ok(Some((found, text.as_slice() == line)))
}

/// Returns whether a line is read as exactly this event, and the event is written as exactly this line.
fn is_line_of(alloc: Global, lab: &Lab, line: &[u8], event: &Event) -> Result<bool, Memory> {
    Ok(read_and_written(alloc, lab, line)? == Some((*event, true)))
}

/// Returns whether each line of `OTHERS` is read as its event of `other_events`, and the event is written as that line.
fn are_read_and_written(alloc: Global, lab: &Lab) -> Result<bool, Fail> {
    for (line, event) in OTHERS.iter().zip(other_events().iter()) {
        if !is_line_of(alloc, lab, line, event)? {
            return Ok(false);
        }
    }
    Ok(true)
}

/// Returns three answers: whether all lines of `SHAPES` are rejected as `Shape`, whether all of `UNKNOWNS` are rejected
/// as `Unknown`, and whether all of `OTHERS` are read and written rightly.
fn are_rows_read(alloc: Global, lab: &Lab) -> Result<(bool, bool, bool), Fail> {
    let shapes = have_fault(lab, SHAPES, JournalFault::Shape);
    let unknowns = have_fault(lab, UNKNOWNS, JournalFault::Unknown);
    Ok((shapes, unknowns, are_read_and_written(alloc, lab)?))
}

/// Reads lines over the path of three. Returns the three answers of `are_rows_read`, about `SHAPES`, `UNKNOWNS` and
/// `OTHERS`. Also returns whether the lines of `TEN_LINES` with replaced bytes are read as `replaced::REPLACED` says.
fn are_lines_read(alloc: Global) -> Result<((bool, bool, bool), bool), Fail> {
    let lab = boxed_lab(alloc, PATH_OF_THREE)?;
    Ok((
        are_rows_read(alloc, &lab)?,
        replaced::are_read_as_marked(alloc, &lab)?,
    ))
}

/// Checks how lines are read and written, and with which error lines are rejected that aren't those of an event. The
/// right results were worked out by hand, and for replaced bytes by the plain model.
#[test]
fn lines_are_read_and_written(rt: HostRuntime) -> Result<(), Fail> {
    assert_eq!(rt; are_lines_read(rt.alloc())?, ((true, true, true), true));
    Ok(())
}
