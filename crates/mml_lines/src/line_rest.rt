//! The part of an output line after its front, for example after the number of a connection.
ghost use Rattle.std.specs.Prelude.{◌≡◌, ◌+◌, ◌≤◌, ◌++◌, Bool, List, ℕ, length, vec_capacity, if◌then◌else◌};

/// The greatest length, in bytes, of a rest of a line that counts as short.
pub const REST_ROOM: usize = 2048;

/// The part of an output line after its front. The part writes itself into the output buffer, so that it needn't be
/// copied there.
pub trait LineRest {
    // What must hold of a rest that is appended to a buffer.
    ghost may_tell: { Self → Type 0 };

    // The bytes of the rest.
    ghost text: { Self → List ℕ };
    // The rest counts as short: it has at most `REST_ROOM` bytes.
    ghost is_short: { Self → Bool };

    /// If the rest of the line is short, appends it to the vector and returns true. Otherwise appends nothing and
    /// returns false. The vector must have room for `REST_ROOM` bytes, and keeps its capacity.
    fn append_to(&self, out: &mut Vec<u8>) -> bool
        requires told { may_tell self.now }
        requires room { length out.old.items + REST_ROOM ≤ vec_capacity out.old }
        ensures short { result ≡ is_short self.now }
        ensures text { out.new.items
            ≡ (if result then out.old.items ++ text self.now else out.old.items) }
        ensures grows { length out.new.items ≤ length out.old.items + REST_ROOM }
        ensures capacity { vec_capacity out.new ≡ vec_capacity out.old };
}
