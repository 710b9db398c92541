//! Tests of a hall whose sink fails after each possible number of bytes: which bytes the sink has, which events the
//! hall has, and what audits say about the bytes. An error means that memory ran out, or is that of a script.
//!
//! A hall is the server of one thread, which answers scripts. A board is the state of a run after some events. A put
//! is a write to a sink. A hall is halted if a put has failed; then it grants nothing more. An audit checks whether
//! bytes are the journal of a run of a lab. A `Drip` is a sink that stores one byte in each put, and fails after some
//! puts. `TEN_LINES` is the journal of the ten acts of a stored run over the path of three: nodes 1, 2 and 3 in a
//! row. A journal is torn if its last line isn't whole.
use mml_audit::{audit, audit_events};
use mml_fakes::labs::PATH_OF_THREE;
use mml_fakes::scripts::{GREETINGS, TEN_ACTS, TEN_LINES, ended_lines};
use mml_fakes::{Drip, FakeWriter};
use mml_hall::{Hall, run_script};
use mml_lab_file::read_lab;
use std::alloc::Global;
use std::test::Fail;

/// Returns whether a hall's sink has exactly the first `puts` bytes of `TEN_LINES`, and the hall has one event for each
/// whole line in them. If bytes are missing, one put must have failed and halted the hall.
fn has_dripped(hall: &Hall<Drip>, puts: usize) -> bool {
    let (wanted, _) = TEN_LINES.as_bytes().split_at(puts.min(TEN_LINES.len()));
    let lines = ended_lines(wanted);
    hall.sink().bytes.as_slice() == wanted
        && hall.halted() == (puts < TEN_LINES.len())
        && hall.sink().failures == u64::from(hall.halted())
        && hall.events().len() == lines
        && hall.board().place() == lines as u64
}

/// Returns whether a journal passes `audit` in the hall's lab, and the audit returns the hall's board.
fn leads_to_board(alloc: Global, hall: &Hall<Drip>, journal: &[u8]) -> bool {
    match audit(alloc, hall.lab(), journal) {
        Ok(board) => board.is_same(hall.board()),
        Err(_) => false,
    }
}

/// Returns whether a journal passes `audit_events` in the hall's lab, and the audit returns the hall's events and
/// board.
fn is_listed(alloc: Global, hall: &Hall<Drip>, journal: &[u8]) -> bool {
    match audit_events(alloc, hall.lab(), journal) {
        Ok(audited) => {
            audited.board.is_same(hall.board()) && audited.events.as_slice() == hall.events()
        }
        Err(_) => false,
    }
}

/// Returns whether the journal in a hall's sink passes both audits if its last line is whole, and neither if it is
/// torn. A journal that passes must have the hall's events and lead to the hall's board.
fn is_audited(alloc: Global, hall: &Hall<Drip>) -> bool {
    let journal = hall.sink().bytes.as_slice();
    let is_whole = match journal.last() {
        Some(byte) => *byte == b'\n',
        None => true,
    };
    leads_to_board(alloc, hall, journal) == is_whole && is_listed(alloc, hall, journal) == is_whole
}

/// Answers a script over the path of three, with a sink that stores one byte in each put and fails after `puts` of
/// them. Returns the hall after the script.
fn hall_of(alloc: Global, script: &str, puts: usize) -> Result<Box<Hall<Drip>>, Fail> {
    let lab = read_lab(alloc, PATH_OF_THREE.as_bytes())?;
    let sink = Drip::failing_after(puts, alloc);
    let mut writer = FakeWriter::patient(alloc);
    let hall = run_script(alloc, lab, &mut script.as_bytes(), &mut writer, sink)?;
    Ok(Box::new(alloc, hall)?)
}

/// Answers a script with a sink that stores one byte in each put, and fails after `puts` of them. Returns whether the
/// hall has failed as it should: the sink has the first `puts` bytes of the journal, the hall has the events of the
/// whole lines among them, and an audit passes these bytes exactly if their last line is whole.
fn fails_rightly_after(alloc: Global, script: &str, puts: usize) -> Result<bool, Fail> {
    let hall = hall_of(alloc, script, puts)?;
    Ok(has_dripped(&hall, puts) && is_audited(alloc, &hall))
}

/// Returns the first number of bytes for which `fails_rightly_after` is `false` for the script of the ten acts, or
/// `None` if there is no such number.
fn first_other_count(alloc: Global) -> Result<Option<usize>, Fail> {
    let script = format!(in alloc; "{GREETINGS}{TEN_ACTS}")?;
    for puts in 0..=TEN_LINES.len() {
        if !fails_rightly_after(alloc, script.as_str(), puts)? {
            return Ok(Some(puts));
        }
    }
    Ok(None)
}

/// Checks halls whose sink fails after each possible number of bytes: the sink must have exactly these bytes, and the
/// hall the events of their whole lines. Audits must pass whole lines, and no torn line.
#[test]
fn each_byte_of_a_journal_may_be_the_last(rt: HostRuntime) -> Result<(), Fail> {
    assert_eq!(rt; first_other_count(rt.alloc())?, None);
    Ok(())
}
