//! Refusals: the reasons why an act doesn't happen although all its clauses hold.
//!
//! A clause is a condition under which a request is granted; a denial names the first that doesn't hold. An act is a
//! request for an event. The journal is halted if a line couldn't be written to it.
use mml_ids::Memory;

/// Why an act doesn't happen although all its clauses hold, or why the reply to a ruling can't be made.
#[derive(Clone, Copy, PartialEq, Eq)]
pub enum Refusal {
    /// The run already has as many events as the lab allows.
    Full,
    /// The journal is halted, or its sink failed just now.
    Journal,
    /// Memory ran out.
    Memory,
}

impl From<Memory> for Refusal {
    ghost use Rattle.std.specs.Prelude.{◌≡◌};
    ghost use Rattle.mml_policy.specs.declared.refusal.Refusal.TheVariants as refusal;

    ghost from_gives = { λ _ e. e ≡ refusal.Memory };

    /// Turns a failed allocation into `Refusal::Memory`, so that `?` returns it.
    fn from(_memory: Memory) -> Refusal {
        Refusal::Memory
    }
}
