//! The errors of lab files. Each law is the contract of a function that does nothing.
//!
//! A lab file has keys with values, for example the nodes, the links and the students of a lab.
ghost use Rattle.std.specs.Prelude.{◌≡◌, Some};
ghost use Rattle.mml_lab.specs.declared.lab_fault.LabFault.{LabFault};
ghost use Rattle.mml_lab_file.specs.Reading.{lab_fault};
ghost use Rattle.mml_lab_file.specs.Shape.{RawSpec};
ghost use Rattle.mml_lab_file.specs.LabErrors.{IsFirstError};

/// Take a lab file that has all keys, each with a value of the type that the key needs. If an error is reported, the
/// file has this error. The file is searched as a whole for one sort of error after another. So the file has no error
/// of a sort that `order_of` puts earlier.
pub fn errors_are_told_in_order()
    ensures { (raw : RawSpec) (f : LabFault) → lab_fault raw ≡ Some f → IsFirstError raw f }
{}
