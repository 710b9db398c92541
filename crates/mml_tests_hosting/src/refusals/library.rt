//! The C library of `tests/memory/refuse.c`, which refuses requests for memory. The gate runs these tests once more
//! with this library loaded. A test controls the library by requests of impossibly many bytes; without the library
//! these requests are simply refused.
use std::alloc::Global;

/// A size whose request makes the library refuse one later request for memory. The number of that later request is
/// added to the size, or 0 for none.
const ARM: usize = 0x11 << 56;

/// A size whose request makes the library refuse each request for memory from a later one on. The number of that later
/// request is added to the size.
const FROM: usize = 0x12 << 56;

/// A size whose request is granted only if the library is loaded, and no request was made since the library got its
/// last task.
const MADE: usize = 0x13 << 56;

/// A size whose request is granted only if the library is loaded, and has refused no request since it got its last
/// task.
const MET: usize = 0x14 << 56;

/// Returns whether a request for this many bytes is granted. The bytes are freed again. The library recognises the
/// sizes above as orders or questions.
fn is_granted(alloc: Global, bytes: usize) -> bool {
    let block: Result<Vec<u8>, _> = Vec::with_capacity(alloc, bytes);
    block.is_ok()
}

/// Makes the library refuse the nth request for memory from now on, or none if `nth` is 0. A number above 1,000,000
/// counts as 1,000,000. Does nothing if the library isn't loaded.
pub fn refuse(alloc: Global, nth: usize) {
    is_granted(alloc, ARM.saturating_add(nth.min(1_000_000)));
}

/// Makes the library refuse each request for memory from now on. Does nothing if the library isn't loaded.
pub fn refuse_all(alloc: Global) {
    is_granted(alloc, FROM.saturating_add(1));
}

/// Returns whether the library is loaded, and no request for memory was made since `refuse` was called.
pub fn was_none_made(alloc: Global) -> bool {
    is_granted(alloc, MADE)
}

/// Returns whether the library that refuses requests for memory is loaded. From now on no request is refused.
pub fn is_there(alloc: Global) -> bool {
    refuse(alloc, 0);
    was_none_made(alloc)
}

/// Returns whether no request for memory was refused since `refuse` was called. Returns `true` too if the library isn't
/// loaded (`is_there` is `false`). From now on no request is refused.
pub fn was_none_refused(alloc: Global, is_there: bool) -> bool {
    let was_none = !is_there || is_granted(alloc, MET);
    refuse(alloc, 0);
    was_none
}
