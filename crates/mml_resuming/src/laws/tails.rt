//! What is dropped of the old journal when a class is resumed. Each law is the contract of a function that does
//! nothing.
//!
//! The tail of a journal is what follows its last newline.
ghost use Rattle.std.specs.Prelude.{◌≢◌, ◌<◌, ◌+◌, ℕ, List, length};
ghost use Rattle.mml_resuming.specs.Resuming.{counted_of, whole_of};

/// Bytes after the last newline of an old journal are dropped only if they are fewer than 102, the length of the
/// longest line of an event with its newline. So they may be the beginning of such a line, but not a whole one. If they
/// are more, nothing is dropped, and all bytes are audited. `whole_of` has the bytes up to the last newline, and
/// `counted_of` those that aren't dropped.
#[tactic(auto, using(crate::proofs::TailsLemmas::tail_is_short))]
pub fn a_tail_is_shorter_than_a_line()
    ensures { (bytes : List ℕ) → counted_of bytes ≢ bytes →
        length bytes < length (whole_of bytes) + 102 }
{}
