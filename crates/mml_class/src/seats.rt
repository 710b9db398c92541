//! The source of the texts of a class's record.
//!
//! A seat serves one connection after another, each through the seat's window. A seat's text has the lines of its
//! sessions with their replies. One more text states how many events came before the record.
ghost use Rattle.std.specs.Prelude.{◌≡◌, ℕ, List, Option, Some, IfOk, IfSome};

use mml_ids::Memory;
use std::io::Read;

/// Why a text of a class's record couldn't be read.
#[derive(Clone, Copy, PartialEq, Eq)]
pub enum SeatFault {
    /// The text can't be opened, a read failed, the text is too long, or it doesn't state how many events came before
    /// the record.
    Read,
    /// Memory ran out.
    Memory,
}

impl From<Memory> for SeatFault {
    ghost use Rattle.mml_class.specs.declared.seats.SeatFault.TheVariants as faults;

    ghost from_gives = { λ _ e. e ≡ faults.Memory };

    // Returns the fault for memory that ran out.
    fn from(_memory: Memory) -> SeatFault {
        SeatFault::Memory
    }
}

/// A source of the texts of a class's record.
pub trait Seats<R: Read> {
    // The bytes of the text with the number of events before the record; `None` if contracts can't name them.
    ghost begun: { Self → Option (List ℕ) };

    // The bytes of the record of the seat with a number; `None` if contracts can't name them.
    ghost text: { Self → ℕ → Option (List ℕ) };

    /// Opens the text with the number of events before the record. Returns a reader at its beginning. Returns `Memory`
    /// if memory runs out, and `Read` if the text can't be opened for another reason.
    fn open_begun(&self) -> Result<R, SeatFault>
        ensures { IfOk result (λ reader. IfSome (begun self.now) (λ bytes. R.remaining reader ≡ Some bytes)) };

    /// Opens the record of the seat with this number. Returns a reader at its beginning. Returns `Memory` if memory
    /// runs out, and `Read` if the record can't be opened for another reason.
    fn open_seat(&self, number: u8) -> Result<R, SeatFault>
        ensures { IfOk result (λ reader. IfSome (text self.now number) (λ bytes. R.remaining reader ≡ Some bytes)) };
}
