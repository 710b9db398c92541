//! Tests of error lines and exit statuses that no use of the program shows, and of errors for memory that ran out.
use mml_ids::IdFault;
use mml_lab::LabFault;
use mml_program::Fault;
use std::alloc::{AllocError, Global};
use std::test::Fail;

/// Returns whether the exit status of an error and its line, with a space between them, make the text `wanted`.
fn has_line(alloc: Global, fault: &Fault, wanted: &str) -> Result<bool, AllocError> {
    let status = fault.status();
    let told = format!(in alloc; "{status} {fault}")?;
    Ok(told.as_str() == wanted)
}

/// Checks the statuses and lines of two errors that no use of the program shows. Also checks that the errors `Memory`
/// of a lab and of its nodes' identifiers become the program's.
#[test]
fn faults_that_are_not_met_have_lines(rt: HostRuntime) -> Result<(), Fail> {
    let astray = has_line(
        rt.alloc(),
        &Fault::Astray,
        "4 serve: the tally does not fit",
    )?;
    let place = has_line(rt.alloc(), &Fault::Place, "5 serve: no place for a window")?;
    let lab = Fault::from(LabFault::Memory) == Fault::Memory;
    let id = Fault::from(LabFault::Id(IdFault::Memory)) == Fault::Memory;
    assert_eq!(rt; [astray, place, lab, id], [true; 4]);
    Ok(())
}
