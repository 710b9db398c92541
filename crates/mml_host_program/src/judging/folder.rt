//! The folder of a record, from which the check of a class reads.
//!
//! The record of a class has the lines of its connections and the replies. A seat is a part of the server that serves
//! one connection after another. The folder has a file for each seat, and the file `begun` with the number of events
//! before the record. A plain file is one that isn't a folder, a pipe or a device.
ghost use Rattle.std.specs.Prelude.{◌≡◌, ◌≢◌, ◌++◌, codes, decimal, string_bytes, IfOk};
ghost use Rattle.std.specs.IoError.{error_kind};

use mml_class::{SeatFault, Seats};
use mml_ids::Memory;
use std::alloc::Global;
use std::fs::File;
use std::io::{Error as IoError, ErrorKind};
use std::rt::Files;
use std::{fs, io};

/// A folder with the record of a class: a file for each seat, and the file `begun` with the number of events before it.
#[derive(Drop)]
pub struct Folder<'a, R> {
    pub rt: &'a R,
    pub path: &'a str,
}

impl<'a, R: Files<File = File> + AllocGlobal> Seats<File> for Folder<'a, R> {
    ghost use Rattle.std.specs.Prelude.{None};

    ghost begun = { λ _. None };

    ghost text = { λ _ _. None };

    // Opens the file `begun`, which has the number of events before the record. Returns `Read` if the file can't be
    // opened or isn't a plain file, and `Memory` if memory runs out.
    fn open_begun(&self) -> Result<File, SeatFault> {
        let path = begun_path(self.rt.alloc(), self.path)?;
        open_part(self.rt, path.as_str())
    }

    // Opens the file of the seat with this number. Returns `Read` if the file can't be opened or isn't a plain file,
    // and `Memory` if memory runs out.
    fn open_seat(&self, number: u8) -> Result<File, SeatFault> {
        let path = record_path(self.rt.alloc(), self.path, number)?;
        open_part(self.rt, path.as_str())
    }
}

/// Returns the path of the file `begun` in a record's folder. Returns `Memory` if memory runs out.
fn begun_path(alloc: Global, folder: &str) -> Result<String, Memory>
    ensures { IfOk result (λ path. string_bytes path ≡ folder.now ++ codes "/begun") }
{
    match format!(in alloc; "{folder}/begun") {
        Ok(path) => Ok(path),
        Err(_) => Err(Memory),
    }
}

/// Returns the path of a seat's file in a record's folder. Returns `Memory` if memory runs out.
fn record_path(alloc: Global, folder: &str, seat: u8) -> Result<String, Memory>
    ensures { IfOk result (λ path. string_bytes path
        ≡ folder.now ++ (codes "/" ++ (decimal seat ++ codes ".record"))) }
{
    match format!(in alloc; "{folder}/{seat}.record") {
        Ok(path) => Ok(path),
        Err(_) => Err(Memory),
    }
}

/// Opens the plain file of the record at `path`. Returns `Memory` if memory runs out. Returns `Read` if the file can't
/// be opened or isn't a plain file.
fn open_part<R: Files<File = File> + AllocGlobal>(rt: &R, path: &str) -> Result<File, SeatFault> {
    match open_plain(rt, path) {
        Ok(Some(file)) => Ok(file),
        Ok(None) => Err(SeatFault::Read),
        Err(error) => Err(open_fault(&error)),
    }
}

/// Returns why a file can't be opened: `Memory` if the system's error says that memory ran out, and otherwise `Read`.
fn open_fault(error: &IoError) -> SeatFault
    ensures memory { error_kind error.now ≡ ErrorKind.OutOfMemory → result ≡ SeatFault.Memory }
    ensures read { error_kind error.now ≢ ErrorKind.OutOfMemory → result ≡ SeatFault.Read }
{
    if error.kind() == ErrorKind::OutOfMemory {
        SeatFault::Memory
    } else {
        SeatFault::Read
    }
}

/// Opens the file at `path`, and returns `None` if it isn't plain. Checks the kind first, because opening a pipe would
/// wait for a writer. Returns the system's error if the check or the opening fails.
fn open_plain<R: Files<File = File>>(rt: &R, path: &str) -> io::Result<Option<File>> {
    if fs::metadata(rt, path)?.is_file() {
        Ok(Some(fs::open(rt, path)?))
    } else {
        Ok(None)
    }
}
