//! A reader that returns one byte in a read.
use mml_serving::LetGo;
use std::io;
use std::io::Read;

/// A reader that returns these bytes one by one.
#[derive(Drop)]
pub struct Bytewise<'a> {
    pub rest: &'a [u8],
}

impl<'a> Read for Bytewise<'a> {
    // Returns the next byte, or 0 bytes if none is left or there is no room for it.
    fn read(&mut self, buf: &mut [u8]) -> io::Result<usize> {
        let len = buf.len().min(1);
        self.rest.read(&mut buf[..len])
    }
}

impl<'a> LetGo for Bytewise<'a> {
    // Does nothing: a reader in memory has no handle.
    fn let_go(&mut self) {}
}
