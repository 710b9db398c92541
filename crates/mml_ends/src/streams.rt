//! Standard streams that are closed when the program starts.
use std::fs::{File, OpenOptions};
use std::io;
use std::os::fd::{AsRawFd, IntoRawFd, RawFd};
use std::rt::Files;

/// Opens the null device for each standard stream that is closed, so that no file that is opened later gets its
/// descriptor. Standard input is opened only for writing, the other two only for reading, so each use of such a stream
/// still fails. Must be called before any other file is opened. `rt` is the system that opens files. Returns an error
/// if the null device can't be opened.
pub fn hold_streams<R: Files<File = File>>(rt: &R) -> io::Result<()> {
    for stream in 0..3 {
        hold_stream(rt, stream)?;
    }
    Ok(())
}

/// Opens the null device for one standard stream, given by its descriptor, if it is closed, and leaves an open one as
/// it is. The streams before `stream` must be open. The system assigns the least free descriptor, so the null device
/// gets the descriptor `stream` exactly if it is free. Otherwise the null device is closed again. Returns an error if
/// opening fails.
fn hold_stream<R: Files<File = File>>(rt: &R, stream: RawFd) -> io::Result<()> {
    let is_input = stream == 0;
    let file = OpenOptions::new()
        .read(!is_input)
        .write(is_input)
        .open(rt, "/dev/null")?;
    if file.as_raw_fd() == stream {
        // The descriptor stays open to the end of the program.
        let _ = file.into_raw_fd();
    }
    Ok(())
}
