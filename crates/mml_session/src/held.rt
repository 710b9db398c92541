//! The output buffer of a session's replies.
//!
//! Replies are held in the buffer until they are written together. A short reply is built in the buffer itself, and a
//! long one elsewhere. The observer of a session is called with how many replies were written.
ghost use Rattle.std.specs.Prelude.{◌≡◌, ◌<◌, ◌≤◌, ◌++◌, [], length, take, IfOk, IfErr, OnOk, IsTrue, if◌then◌else◌};
ghost use Rattle.std.specs.Io.KnownBytes.{Appends};
ghost use Rattle.mml_session.specs.Holding.{IsHeldOrOut};

use mml_codec::REPLY_ROOM;
use mml_ids::Memory;
use mml_lines::{WriteFault, put_all, put_both};
use std::alloc::Global;
use std::io::Write;

// The most bytes that stay in the buffer from one reply to the next. If there are more, the whole buffer is written.
const HELD_BYTES: usize = 8192;

// The lines of replies that were buffered and aren't written yet, so that one write can send many.
#[derive(Drop)]
pub(crate) struct Held {
    pub(crate) bytes: Vec<u8>,
    // How many replies were buffered or written since the observer was last called for written replies.
    pub(crate) replies: u32,
}

impl Held {
    /// Returns an empty buffer, with all the memory that it ever needs: for `HELD_BYTES`, and a short reply that is
    /// built after them. Returns `Memory` if memory runs out.
    pub(crate) fn new(alloc: Global) -> Result<Held, Memory>
        ensures { IfOk result (λ held. held.bytes.items ≡ []) }
    {
        Ok(Held {
            bytes: Vec::with_capacity(alloc, HELD_BYTES + REPLY_ROOM)?,
            replies: 0,
        })
    }

    /// Appends the line of a reply that was built elsewhere. If there is no room for it, or `at_once` is set, writes
    /// the buffer and the line to `writer`, and empties the buffer. If a write fails, empties the buffer, and returns
    /// how many bytes of the buffered lines and of this one were written. Afterwards the buffer has at most
    /// `HELD_BYTES`.
    pub(crate) fn put<W: Write>(
        &mut self,
        line: &[u8],
        at_once: bool,
        writer: &mut W,
    ) -> Result<(), WriteFault>
        ensures ok { OnOk result (IsHeldOrOut (W.contents writer.old) (W.contents writer.new)
            (self.old.bytes.items ++ line.now) self.new.bytes.items) }
        ensures out { OnOk result (IsTrue at_once → (self.new.bytes.items ≡ [])
            × Appends (W.contents writer.old) (W.contents writer.new)
            (self.old.bytes.items ++ line.now)) }
        ensures partial { IfErr result (λ fault.
            fault.written < length (self.old.bytes.items ++ line.now)) }
        ensures err { IfErr result (λ fault.
            Appends (W.contents writer.old) (W.contents writer.new)
            (take fault.written (self.old.bytes.items ++ line.now))) }
        ensures none { IfErr result (λ _. self.new.bytes.items ≡ []) }
        ensures within { length self.new.bytes.items ≤ HELD_BYTES }
    {
        if self.hold(line) {
            return self.let_out_when_due(at_once, writer);
        }
        let came = put_both(&self.bytes, line, writer);
        self.bytes.clear();
        came
    }

    /// Writes all buffered lines to `writer` and empties the buffer, if `at_once` is set or there are more than
    /// `HELD_BYTES`. There can be more after a reply was built in the buffer. If a write fails, empties the buffer, and
    /// returns how many bytes were written. Afterwards the buffer has at most `HELD_BYTES`.
    pub(crate) fn let_out_when_due<W: Write>(
        &mut self,
        at_once: bool,
        writer: &mut W,
    ) -> Result<(), WriteFault>
        ensures ok { OnOk result (IsHeldOrOut (W.contents writer.old) (W.contents writer.new)
            self.old.bytes.items self.new.bytes.items) }
        ensures out { OnOk result (IsTrue at_once → (self.new.bytes.items ≡ [])
            × Appends (W.contents writer.old) (W.contents writer.new) self.old.bytes.items) }
        ensures partial { IfErr result (λ fault.
            fault.written < length self.old.bytes.items) }
        ensures err { IfErr result (λ fault.
            Appends (W.contents writer.old) (W.contents writer.new)
            (take fault.written self.old.bytes.items)) }
        ensures none { IfErr result (λ _. self.new.bytes.items ≡ []) }
        ensures within { length self.new.bytes.items ≤ HELD_BYTES }
    {
        if at_once || self.bytes.len() > HELD_BYTES {
            return self.let_out(writer);
        }
        Ok(())
    }

    /// Writes all buffered lines to `writer` and empties the buffer. If a write fails, empties the buffer too, and
    /// returns how many bytes were written.
    pub(crate) fn let_out<W: Write>(&mut self, writer: &mut W) -> Result<(), WriteFault>
        ensures none { self.new.bytes.items ≡ [] }
        ensures ok { OnOk result (Appends (W.contents writer.old) (W.contents writer.new)
            self.old.bytes.items) }
        ensures partial { IfErr result (λ fault.
            fault.written < length self.old.bytes.items) }
        ensures err { IfErr result (λ fault.
            Appends (W.contents writer.old) (W.contents writer.new)
            (take fault.written self.old.bytes.items)) }
    {
        let came = put_all(writer, &self.bytes);
        self.bytes.clear();
        came
    }

    /// Appends a line to the buffer if the buffer then has at most `HELD_BYTES`. Returns whether the line was appended.
    fn hold(&mut self, line: &[u8]) -> bool
        ensures { self.new.bytes.items
            ≡ (if result then self.old.bytes.items ++ line.now else self.old.bytes.items) }
    {
        // Written so that no sum can overflow.
        if HELD_BYTES < line.len() || HELD_BYTES - line.len() < self.bytes.len() {
            return false;
        }
        self.bytes.extend_from_slice(line).is_ok()
    }
}
