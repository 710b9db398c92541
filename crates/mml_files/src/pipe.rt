//! Opening a named pipe for writing without waiting for a reader.
use crate::file_fault::FileFault;
use crate::paths::appending;
use libc::net::{POLLERR, poll};
use libc::types::pollfd;
use std::fs::File;
use std::os::fd::AsRawFd;
use std::rt::Files;

// How many times the pipe is checked for a reader, at most.
const LOOKS: u32 = 50;

// How many milliseconds pass between two checks.
const PAUSE: i32 = 20;

/// Opens a named pipe to append to it. Returns `Refused` if nobody reads it within a second (`LOOKS` checks with a
/// `PAUSE` after each). Opening a pipe only for writing would wait for a reader. So the pipe is first opened for
/// reading and writing. That handle is closed once a second one is open only for writing.
pub fn open_pipe<R: Files<File = File>>(rt: &R, path: &str) -> Result<File, FileFault> {
    let both = appending().read(true).open(rt, path)?;
    let file = appending().open(rt, path)?;
    drop(both);
    for _ in 0..LOOKS {
        if is_read(&file) {
            return Ok(file);
        }
        // Waits for `PAUSE` milliseconds; nothing is polled.
        let _ = poll(&mut [], PAUSE);
    }
    Err(FileFault::Refused)
}

/// Returns whether somebody has the pipe open for reading. `file` is the pipe's end for writing, on which the system
/// reports an error if nobody reads.
fn is_read(file: &File) -> bool {
    let mut ends = [pollfd {
        fd: file.as_raw_fd(),
        events: 0,
        revents: 0,
    }];
    let _ = poll(&mut ends, 0);
    ends[0].revents & POLLERR == 0
}
