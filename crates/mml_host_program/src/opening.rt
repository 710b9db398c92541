//! What every class opens before it is served: its ports, and the folder of its record.
//!
//! The record of a class has the lines of its connections and the replies. Values are dropped by calls of `drop` before
//! a function returns, which keeps the proofs short.
use crate::fault::{Fault, of_record};
use crate::words::ClassTask;
use mml_ports::{Ports, listen_at};
use mml_recording::RecordFolder;
use std::fs::File;
use std::net::{Net, TcpListener, TcpStream};
use std::rt::Files;
use std::time::Clock;

/// Opens the ports of the class, and then the record's folder, if one is named. `lab` has the bytes of the lab's file.
/// If `events` is `None`, the class is new, and its record is begun. Otherwise the class is resumed after this many
/// events, and its record is continued. Returns the ports and the folder (`None` if none is named), or an error if one
/// of them can't be opened.
pub(crate) fn open_ports_and_folder<
    R: Files<File = File> + Net<Listener = TcpListener, Stream = TcpStream> + Clock + AllocGlobal,
>(
    rt: &R,
    class: &ClassTask<'_>,
    lab: &[u8],
    events: Option<u64>,
) -> Result<(Ports, Option<RecordFolder>), Fault> {
    let ports = listen_at(rt, class.port, class.desk)?;
    match open_folder(rt, class.record, lab, events) {
        Ok(folder) => Ok((ports, folder)),
        Err(fault) => {
            drop(ports);
            Err(fault)
        }
    }
}

/// Opens the record's folder at `path`, if there is a path, and begins or continues the record, as
/// `open_ports_and_folder` says. Returns the folder, `None` if there is no path, or an error if the folder can't be
/// opened.
fn open_folder<R: Files<File = File> + Clock + AllocGlobal>(
    rt: &R,
    path: Option<&str>,
    lab: &[u8],
    events: Option<u64>,
) -> Result<Option<RecordFolder>, Fault> {
    let Some(path) = path else {
        return Ok(None);
    };
    let opened = match events {
        Some(events) => RecordFolder::go_on(rt, path, lab, events),
        None => RecordFolder::begin(rt, path, lab, 0),
    };
    match opened {
        Ok(folder) => Ok(Some(folder)),
        Err(fault) => Err(of_record(fault)),
    }
}
