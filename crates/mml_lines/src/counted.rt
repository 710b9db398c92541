//! A reader whose reads are counted. `Lines` reads only through it.
ghost use Rattle.std.specs.Prelude.{◌≡◌, [], ◌+◌, ◌<◌, ◌≤◌, ◌⊎◌, take, vec_len, IfErr};
ghost use Rattle.std.specs.Vec.{vec_capacity};
ghost use Rattle.std.specs.Io.KnownBytes.{Consumes, IsAtEnd, prepend_known};
ghost use Rattle.mml_ids.specs.Lines.{IsUnbroken};

use crate::lines::{MAX_READS, READ_SIZE, Step};
use std::io::Read;

/// A borrowed reader that counts its reads.
pub(crate) struct Counted<'a, R> {
    reader: &'a mut R,
    reads: u32,
}

impl<R> Drop for Counted<'_, R> {
    // Does nothing. It is written out for its contract: when the borrow ends, the reader is as the last read left it.
    fn drop(self)
        ensures { self.exit.0.now ≡ self.entry.reader.now }
    {
        let Counted {
            reader: _,
            reads: _,
        } = self;
    }
}

impl<'a, R: Read> Counted<'a, R> {
    /// Borrows a reader that was read `reads` times before, and counts on from there.
    pub(crate) fn of(reader: &'a mut R, reads: u32) -> Counted<'a, R>
        ensures same_reader { result.reader.ghost_name ≡ reader.entry.ghost_name }
        ensures reader { result.reader.now ≡ reader.old }
        ensures reads { result.reads ≡ reads }
    {
        Counted { reader, reads }
    }

    /// Returns how many reads were made, including the reads before `of`.
    pub(crate) fn reads(&self) -> u32
        ensures { result ≡ self.now.reads }
    {
        self.reads
    }

    /// Reads once into the buffer `chunk`, counts the read, and appends the bytes that were read to `held`, the
    /// beginning of a line. `chunk` must have `READ_SIZE` bytes, and `held` room for as many, so that nothing is
    /// allocated. Fewer than `MAX_READS` reads may have been made before. Returns `End` at the reader's end and
    /// `ReadFault` if the read fails; then `held` is as it was.
    pub(crate) fn read_onto(&mut self, held: &mut Vec<u8>, chunk: &mut Vec<u8>) -> Result<(), Step>
        requires needed { IsUnbroken held.old.items }
        requires few { self.old.reads < MAX_READS }
        requires chunk { vec_len chunk.old ≡ READ_SIZE }
        requires room { vec_len held.old + READ_SIZE ≤ vec_capacity held.old }
        ensures counted { self.new.reads ≡ self.old.reads + 1 }
        ensures same_reader { self.new.reader.ghost_name ≡ self.old.reader.ghost_name }
        ensures chunk { vec_len chunk.new ≡ READ_SIZE }
        ensures capacity { vec_capacity held.old ≤ vec_capacity held.new }
        ensures kept { Consumes (prepend_known held.old.items (R.remaining self.old.reader.now))
            (prepend_known held.new.items (R.remaining self.new.reader.now)) [] }
        ensures front { take (vec_len held.old) held.new.items ≡ held.old.items }
        ensures size { vec_len held.new ≤ vec_len held.old + READ_SIZE }
        ensures err { IfErr result (λ step. (held.new.items ≡ held.old.items)
            × ((step ≡ Step.End) × IsAtEnd (R.remaining self.new.reader.now)
            ⊎ (step ≡ Step.ReadFault))) }
    {
        self.reads += 1;
        match self.reader.read(chunk) {
            Ok(0) => Err(Step::End),
            Ok(n) => {
                held.extend_from_slice(&chunk[..n]).unwrap();
                Ok(())
            }
            Err(_) => Err(Step::ReadFault),
        }
    }
}
