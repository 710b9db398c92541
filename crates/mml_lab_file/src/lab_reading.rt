//! Reading a lab file: from its bytes to the lab.
//!
//! In a contract, `Gives` means that a function returns the result that a definition names, or `Memory` if memory runs
//! out.
ghost use Rattle.mml_ids.specs.Gives.{Gives};
ghost use Rattle.mml_lab_file.specs.Shape.{is_lab_memory};
ghost use Rattle.mml_lab_file.specs.Reading.{lab_of};

use crate::build::build;
use crate::checks::check;
use crate::raw_lab::read_bytes;
use mml_lab::{Lab, LabFault};
use std::alloc::Global;

/// Returns the lab that the bytes of a lab file describe, or the file's first error. Bytes that aren't TOML are the
/// first error. Then comes the first key, in the order of `Key`, that is missing or has a value of the wrong kind. The
/// other errors follow in the order of `LabFault`. Returns `Memory` if memory runs out.
#[tactic(auto, unfolding(crate::specs::Reading::lab_of))]
pub fn read_lab(alloc: Global, bytes: &[u8]) -> Result<Lab, LabFault>
    ensures { Gives is_lab_memory (λ lab. lab) result (lab_of bytes.now) }
{
    let raw = read_bytes(alloc, bytes)?;
    let checked = check(alloc, raw)?;
    build(alloc, checked)
}
