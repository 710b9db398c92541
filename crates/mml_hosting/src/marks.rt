//! Marks: flags that the threads of a port share, one for each seat. A set mark says that the seat's thread has ended,
//! or is about to end without waiting for anything.
//!
//! A seat serves one connection after another, each in a thread and through the seat's window. `marks` has the mark of
//! the seat with the number n at the index n.
ghost use Rattle.std.specs.Prelude.{IfSome, slice_get};
ghost use Rattle.mml_hosting.specs.Marks.{Says};

use std::sync::atomic::{AtomicU64, Ordering};

/// The mark of a seat: a flag which is set once the seat's thread has ended.
pub(crate) trait Mark {
    ghost use Rattle.std.specs.Prelude.{Bool};

    // The statement that the mark was asked whether it is set, with its answer. For an unknown type, only a call of
    // `is_set` can prove it.
    ghost Answers: { Self → Bool → Type 0 } = { λ _ _. Unit {0} };

    // The statement that the mark was set or reset. For an unknown type, only a call of `put` can prove it.
    ghost IsPut: { Self → Bool → Type 0 } = { λ _ _. Unit {0} };

    /// Returns whether the mark is set.
    fn is_set(&self) -> bool
        ensures { Answers self.now result };

    /// Sets the mark if `has_ended`, and resets it otherwise.
    fn put(&self, has_ended: bool)
        ensures { IsPut self.now has_ended };
}

/// The mark is a number: 1 if it is set, and 0 otherwise.
impl Mark for AtomicU64 {
    // Returns whether the number is 1.
    fn is_set(&self) -> bool {
        self.load(Ordering::SeqCst) == 1
    }

    // Stores 1 if `has_ended`, and 0 otherwise.
    fn put(&self, has_ended: bool) {
        self.store(u64::from(has_ended), Ordering::SeqCst);
    }
}

/// Returns whether the mark of the seat with this number is set, that is, whether the seat's thread has ended. Returns
/// `false` if there is no such mark.
pub(crate) fn is_marked<M: Mark>(marks: &[M], number: u8) -> bool
    ensures { Says M.Answers marks.now number result }
{
    match marks.get(usize::from(number)) {
        Some(mark) => mark.is_set(),
        None => false,
    }
}

/// Sets the mark of the seat with this number if the seat's thread has ended (`has_ended`), and resets it otherwise.
/// Does nothing if there is no such mark.
pub(crate) fn set_mark<M: Mark>(marks: &[M], number: u8, has_ended: bool)
    ensures { IfSome (slice_get marks.now number) (λ mark. M.IsPut mark has_ended) }
{
    if let Some(mark) = marks.get(usize::from(number)) {
        mark.put(has_ended);
    }
}
