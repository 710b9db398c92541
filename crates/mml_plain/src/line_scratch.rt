//! Working memory for reading lines.
ghost use Rattle.std.specs.Prelude.{◌≡◌, ◌≤◌, IfOk};
ghost use Rattle.json.specs.Scratch.{room};

use json::Scratch;
use std::alloc::{AllocError, Global};
use std::marker::Model;

/// Working memory for reading lines, which is used again for each line. In contracts its value is the length of the
/// longest line for which it has room.
#[derive(Drop)]
pub struct LineScratch {
    // A box, since the scratch holds 16 KB.
    inner: Box<Scratch>,
}

impl Model for LineScratch {
    ghost use Rattle.std.specs.Prelude.{ℕ};
    ghost use Rattle.json.specs.Scratch.{room};

    ghost Value = { ℕ };

    ghost view = { λ a. room a.inner.value };
}

impl LineScratch {
    /// Returns memory with room for lines of `limit` bytes. Returns `AllocError` if memory runs out.
    pub fn new(alloc: Global, limit: usize) -> Result<LineScratch, AllocError>
        ensures { IfOk result (λ scratch. limit ≤ scratch) }
    {
        let mut inner = Box::new(alloc, Scratch::new(alloc))?;
        inner.reserve(limit)?;
        Ok(LineScratch { inner })
    }

    /// Borrows the memory inside, with which the tokens of one line are read.
    #[inline(always)]
    pub(crate) fn for_line(&mut self) -> &mut Scratch
        ensures { room result.now ≡ self.old }
    {
        &mut self.inner
    }
}
