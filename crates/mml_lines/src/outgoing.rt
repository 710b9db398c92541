//! A buffer of lines that are written together. The lines in the buffer are held. The rest of a line is the part after
//! its front; it is short if it has at most `REST_ROOM` bytes.

ghost use Rattle.std.specs.Prelude.{◌≡◌, ◌<◌, ◌≤◌, ◌+◌, ◌++◌, ◌∷◌, [], length, take, IfOk, IfErr, OnOk, if◌then◌else◌};
ghost use Rattle.std.specs.List.{concat};
ghost use Rattle.std.specs.Io.KnownBytes.{Appends};
ghost use Rattle.mml_lines.specs.Sending.{BreaksOff, Sends, part_in};

use crate::line_rest::{LineRest, REST_ROOM};
use crate::write_fault::{WriteFault, put_all, put_both};
use mml_ids::{Memory, take_text, with_bytes};
use std::alloc::Global;
use std::io::Write;
use std::marker::Model;

/// The most bytes that an `Outgoing` holds.
pub const OUTGOING_BYTES: usize = 8192;

/// The most lines that an `Outgoing` holds.
pub const OUTGOING_LINES: usize = 512;

/// A buffer of output lines, so that many lines are written with one call. Only making the buffer allocates memory.
/// Contracts see the lines that the buffer holds.
#[derive(Drop)]
pub struct Outgoing {
    // The bytes of the held lines, one line after another.
    bytes: Vec<u8>,
    // The number of bytes of each held line.
    lengths: Vec<usize>,
}

impl Model for Outgoing {
    ghost use Rattle.std.specs.Prelude.{ℕ, List};

    ghost Value = { List (List ℕ) };

    ghost use Rattle.mml_lines.specs.inside.OutgoingView.{outgoing_view, IsOutgoingInside};

    ghost view = { outgoing_view };

    ghost invariant = { IsOutgoingInside };
}

impl Outgoing {
    /// Returns an empty buffer of output lines, which has all the memory that it needs. Returns `Memory` if memory runs
    /// out.
    pub fn new(alloc: Global) -> Result<Outgoing, Memory>
        ensures { IfOk result (λ lines. lines ≡ []) }
    {
        Ok(Outgoing {
            bytes: Vec::with_capacity(alloc, OUTGOING_BYTES + REST_ROOM)?,
            lengths: Vec::with_capacity(alloc, OUTGOING_LINES)?,
        })
    }

    /// Appends a line, `front` and then `rest`, to the buffer. If the buffer has no room for it, writes all held lines
    /// first. A line of more than `OUTGOING_BYTES` bytes never fits, so it is written too, after them. Flushes nothing.
    /// Returns `WriteFault` if a write fails or takes nothing. The fault's `written` counts the written bytes of the
    /// first line that isn't written whole.
    #[tactic(auto, using(crate::proofs::SendingLemmas::breaks_before, crate::proofs::SendingLemmas::put_last))]
    pub fn put<W: Write>(
        &mut self,
        front: &[u8],
        rest: &[u8],
        writer: &mut W,
    ) -> Result<(), WriteFault>
        ensures ok { OnOk result (Sends (W.contents writer.old) (W.contents writer.new)
            (self.old ++ (front.now ++ rest.now) ∷ []) self.new) }
        ensures err { IfErr result (λ fault. BreaksOff fault
            (W.contents writer.old) (W.contents writer.new)
            (self.old ++ (front.now ++ rest.now) ∷ [])) }
    {
        if self.hold(front, rest) {
            return Ok(());
        }
        self.write_out(writer)?;
        if self.hold(front, rest) {
            return Ok(());
        }
        put_both(front, rest, writer)
    }

    /// Writes all held lines, and flushes the writer. Returns `WriteFault` if a write fails or takes nothing, or the
    /// flush fails. The fault's `written` counts the written bytes of the first line that isn't written whole. If only
    /// the flush fails, there is no such line, and `written` is 0.
    pub fn flush<W: Write>(&mut self, writer: &mut W) -> Result<(), WriteFault>
        ensures empty { OnOk result (self.new ≡ []) }
        ensures ok { OnOk result (Sends (W.contents writer.old) (W.contents writer.new) self.old []) }
        ensures err { IfErr result (λ fault. BreaksOff fault
            (W.contents writer.old) (W.contents writer.new) self.old) }
    {
        self.write_out(writer)?;
        match writer.flush() {
            Ok(()) => Ok(()),
            Err(_) => Err(WriteFault { written: 0 }),
        }
    }

    /// Writes all held lines and empties the buffer. Flushes nothing. Returns `WriteFault` if a write fails or takes
    /// nothing. The buffer then keeps all lines, though some of their bytes may be written. The fault's `written`
    /// counts the written bytes of the first line that isn't written whole.
    fn write_out<W: Write>(&mut self, writer: &mut W) -> Result<(), WriteFault>
        ensures empty { OnOk result (self.new ≡ []) }
        ensures ok { OnOk result (Sends (W.contents writer.old) (W.contents writer.new) self.old []) }
        ensures err { IfErr result (λ fault. BreaksOff fault
            (W.contents writer.old) (W.contents writer.new) self.old) }
    {
        match put_all(writer, &self.bytes) {
            Ok(()) => {
                self.bytes.clear();
                self.lengths.clear();
                Ok(())
            }
            Err(fault) => {
                let written = part_of(&self.lengths, fault.written);
                Err(WriteFault { written })
            }
        }
    }

    /// Appends a line, `front` and then `rest`, to the buffer if the rest is short and there is room for the line.
    /// Returns whether it was appended. Writes nothing.
    // The rest's length is known only after it was appended. So it is appended first, for which the memory beyond
    // `OUTGOING_BYTES` suffices, and removed if the buffer then has too many bytes. The function is inlined, so that
    // the loop over a script's lines makes fewer calls.
    #[inline(always)]
    #[tactic(auto, using(crate::proofs::SendingLemmas::one_more_line))]
    pub fn append<L: LineRest>(&mut self, front: &[u8], rest: &L) -> bool
        requires { L.may_tell rest.now }
        ensures lines { self.new ≡ (if result
            then self.old ++ (front.now ++ L.text rest.now) ∷ [] else self.old) }
        ensures room { length self.old < OUTGOING_LINES
            → length (concat self.old) + length front.now + REST_ROOM ≤ OUTGOING_BYTES
            → result ≡ L.is_short rest.now }
    {
        let start = self.bytes.len();
        if self.lengths.len() == OUTGOING_LINES || OUTGOING_BYTES - start < front.len() {
            return false;
        }
        self.bytes = with_bytes(take_text(&mut self.bytes), front);
        if rest.append_to(&mut self.bytes) && self.bytes.len() <= OUTGOING_BYTES {
            self.lengths.push_reserved(self.bytes.len() - start);
            return true;
        }
        self.bytes.truncate(start);
        false
    }

    /// Appends a line, `front` and then `rest`, to the buffer if there is room for it. Returns whether it was appended.
    /// Writes and allocates nothing, so `unwrap` succeeds.
    #[tactic(auto, using(crate::proofs::SendingLemmas::one_more_line))]
    fn hold(&mut self, front: &[u8], rest: &[u8]) -> bool
        ensures { self.new ≡ (if result then self.old ++ (front.now ++ rest.now) ∷ [] else self.old) }
    {
        let room = OUTGOING_BYTES - self.bytes.len();
        if self.lengths.len() == OUTGOING_LINES || room < front.len() {
            return false;
        }
        if room - front.len() < rest.len() {
            return false;
        }
        // The front is copied byte by byte, since it is short.
        self.bytes = with_bytes(take_text(&mut self.bytes), front);
        self.bytes.extend_from_slice(rest).unwrap();
        self.lengths.push_reserved(front.len() + rest.len());
        true
    }
}

/// Returns how many bytes were written of the first line that isn't written whole, or 0 if all lines are. `lengths` has
/// the lengths of the lines, in the order in which they are written. `out` is the number of bytes that were written of
/// all lines together, so it is at most the sum of `lengths`.
fn part_of(lengths: &[usize], out: usize) -> usize
    ensures { result ≡ part_in lengths.now out }
{
    let mut left = out;
    for len in lengths {
        if left < *len {
            return left;
        }
        left -= *len;
    }
    left
}
