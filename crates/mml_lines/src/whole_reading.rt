//! Reading all bytes of a reader.

ghost use Rattle.std.specs.Prelude.{◌≡◌, ◌≤◌, ◌<◌, IfOk, IfSome, length, vec_len};

use std::alloc::Global;
use std::io::{ErrorKind, Read};

/// Why a reader's bytes couldn't be read to the end.
#[derive(Clone, Copy, Debug, PartialEq, Eq)]
pub enum WholeFault {
    /// A read failed.
    Read,
    /// The reader has more bytes than the limit.
    TooLong,
    /// Memory ran out: an allocation failed, or a read failed with `OutOfMemory`.
    Memory,
}

/// Reads a reader to its end, and returns all its bytes. Returns `TooLong` if there are more than `limit` bytes, `Read`
/// if a read fails, and `Memory` if memory runs out. At most `limit + 1` bytes are read; the last of them shows that
/// there are too many.
pub fn read_whole<R: Read + Drop>(
    alloc: Global,
    reader: R,
    limit: u32,
) -> Result<Vec<u8>, WholeFault>
    ensures whole { IfOk result (λ bytes.
        IfSome (R.remaining reader) (λ input. bytes.items ≡ input)) }
    ensures limit { IfOk result (λ bytes. vec_len bytes ≤ limit) }
    ensures too_long { result ≡ Err WholeFault.TooLong →
        IfSome (R.remaining reader) (λ input. limit < length input) }
{
    let mut bytes = Vec::new(alloc);
    match reader.take(u64::from(limit) + 1).read_to_end(&mut bytes) {
        Ok(_) if bytes.len() <= limit as usize => Ok(bytes),
        Ok(_) => Err(WholeFault::TooLong),
        Err(error) if error.kind() == ErrorKind::OutOfMemory => Err(WholeFault::Memory),
        Err(_) => Err(WholeFault::Read),
    }
}
