//! Tests of scripts over the path of three (nodes 1, 2 and 3 in a row): which bytes are written for the bytes that are
//! read. An error (`Fail`) means that memory ran out, or is that of a lab file.
mod answers;
mod journals;
mod reads;
mod waiting;
mod writes;

use mml_fakes::labs::PATH_OF_THREE;
use mml_hall::{ScriptFault, run_script};
use mml_journal::NullSink;
use mml_lab_file::read_lab;
use std::alloc::Global;
use std::io::{Read, Write};
use std::test::Fail;

/// Answers a script over the path of three, and discards its journal. Returns the error that the script ends with, or
/// `None` if it ends well. Returns `Fail` if the lab can't be read.
fn script_error_of<R: Read, W: Write>(
    alloc: Global,
    reader: &mut R,
    writer: &mut W,
) -> Result<Option<ScriptFault>, Fail> {
    let lab = read_lab(alloc, PATH_OF_THREE.as_bytes())?;
    Ok(run_script(alloc, lab, reader, writer, NullSink::new()).err())
}
