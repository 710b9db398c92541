//! Threads that wait for each other.
use std::sync::atomic::{AtomicU64, Ordering};
use std::thread;

/// How often `wait_for` checks its count before it gives up.
const TURNS: u64 = 10_000_000;

/// Waits until `count`, which other threads raise, is at least `wanted`, and returns `true`. Lets other threads run
/// after each check. Returns `false` if the count is still less after `TURNS` checks.
pub fn wait_for(count: &AtomicU64, wanted: u64) -> bool {
    for _ in 0..TURNS {
        if count.load(Ordering::SeqCst) >= wanted {
            return true;
        }
        thread::yield_now();
    }
    false
}
