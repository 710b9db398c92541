//! The limits that the system sets for the program.
use libc::getrlimit;
use libc::types::rlimit;

// The system's number for the limit on the size of a file (`RLIMIT_FSIZE`).
const FILE_SIZE: i32 = 1;

// The system's number for the limit on the size of a stack (`RLIMIT_STACK`).
const STACK: i32 = 3;

// How many bytes of stack a program needs: twice what the request with the deepest calls takes.
const NEEDED: u64 = 256 << 10;

/// Returns how many bytes a file may have at most, or `u64::MAX` if the system sets or reports no limit.
pub fn file_size_limit() -> u64 {
    limit_of(FILE_SIZE)
}

/// Returns whether the system's limit on stacks is less than `NEEDED`, so that it may be too small for the request with
/// the deepest calls. With such a stack the program would end without a message.
pub fn has_small_stacks() -> bool {
    limit_of(STACK) < NEEDED
}

/// Returns the system's limit on the resource with the number `what` (`FILE_SIZE` or `STACK`), in bytes. Returns
/// `u64::MAX` if the system sets or reports none.
fn limit_of(what: i32) -> u64 {
    let mut limit = rlimit {
        rlim_cur: u64::MAX,
        rlim_max: u64::MAX,
    };
    if getrlimit(what, &mut limit) == 0 {
        limit.rlim_cur
    } else {
        u64::MAX
    }
}
