//! The check of the system's limits before a class begins.
use crate::fault::Fault;
use mml_program::Fault as ProgramFault;
use std::alloc::Global;
use std::fs::File;
use std::io::ErrorKind;
use std::rt::Files;
use std::sync::{Mutex, Wait};
use std::thread::Threads;
use std::{fs, thread};

// How many more files a class has open at the same time, at least: the journal, two ports and a spare one, a connection
// at each port, and one that is turned away.
const FILES: usize = 7;

// How many more threads a class has at the same time, at least: one for the students' port, one that watches the
// journal, and one for a connection at each port.
const THREADS: usize = 4;

/// Checks whether the system allows the files and threads that a class needs at least: `FILES` files and `THREADS`
/// threads. For that, opens that many files and closes them again, and then starts that many threads and lets them end.
/// Returns `FewFiles` if a file can't be opened, and `FewThreads` if a thread can't be started. Returns `Memory` if
/// memory runs out while the files are opened.
pub fn look_at_limits<R: Files<File = File> + Threads + Wait + Sync>(
    rt: &R,
    alloc: Global,
) -> Result<(), Fault> {
    let mut held = Vec::new(alloc);
    for _ in 0..FILES {
        match fs::open(rt, "/dev/null") {
            Ok(file) => {
                if held.push(file).is_err() {
                    return Err(Fault::Common(ProgramFault::Memory));
                }
            }
            Err(error) if error.kind() == ErrorKind::OutOfMemory => {
                return Err(Fault::Common(ProgramFault::Memory));
            }
            Err(_) => return Err(Fault::FewFiles),
        }
    }
    drop(held);
    if has_threads(rt) {
        Ok(())
    } else {
        Err(Fault::FewThreads)
    }
}

/// Returns whether `THREADS` threads can exist at the same time. Starts them, and lets none end before all are started:
/// each takes the lock of `door`, which this function holds meanwhile.
fn has_threads<R: Threads + Wait + Sync>(rt: &R) -> bool {
    let door = Mutex::new(());
    thread::scope(thread::scope_env(), rt, |scope| -> bool {
        let shut = door.lock(rt);
        for _ in 0..THREADS {
            if scope.spawn(|| drop(door.lock(rt))).is_err() {
                drop(shut);
                return false;
            }
        }
        drop(shut);
        true
    })
}
