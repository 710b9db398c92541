//! The numbers on a server's command line: its port, and how many connections it serves.
ghost use Rattle.std.specs.Prelude.{◌^◌, ◌-◌};
ghost use Rattle.std.specs.Int.NonZero.{non_zero_u8_get, non_zero_u16_get};
ghost use Rattle.mml_lab.specs.declared.TheConstants.{MAX_SESSIONS};
ghost use Rattle.mml_serving.specs.Numbers.{Reads};

use mml_journal::number_of as decimal_number_of;
use mml_lab::MAX_SESSIONS;
use std::num::{NonZeroU8, NonZeroU16};

/// Reads a port number: from 1 to 65535 in decimal, without sign or leading zero. Returns `None` for any other text.
pub fn read_port(text: &str) -> Option<NonZeroU16>
    ensures { Reads non_zero_u16_get (2 ^ 16 - 1) text.now result }
{
    let number = number_of(text, u64::from(u16::MAX))?;
    NonZeroU16::new(number as u16)
}

/// Reads a number of connections: in decimal, without sign or leading zero, from 1 to the most sessions that a lab may
/// have. Returns `None` for any other text.
pub fn read_connections(text: &str) -> Option<NonZeroU8>
    ensures { Reads non_zero_u8_get MAX_SESSIONS text.now result }
{
    let number = number_of(text, MAX_SESSIONS)?;
    NonZeroU8::new(number as u8)
}

/// Reads a number from 1 to `most` in decimal, without sign or leading zero. Returns `None` for any other text.
#[tactic(auto, using(crate::proofs::NumbersLemmas::read_numbers))]
fn number_of(text: &str, most: u64) -> Option<u64>
    ensures { Reads (λ n. n) most text.now result }
{
    // The outer `None` means that the text is no decimal number, and the inner one that it has more than 64 bits.
    let spelled = decimal_number_of(text.as_bytes())?;
    let number = spelled?;
    if 0 < number && number <= most {
        Some(number)
    } else {
        None
    }
}
