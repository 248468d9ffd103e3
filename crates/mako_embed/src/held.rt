//! A source of one's own: bytes that are held in memory.

ghost use Rattle.std.specs.Prelude.{Some};

use mako_io::{Failed, Source};

/// Bytes that stand in memory, as far as they are still to come. No read fails.
#[derive(Drop)]
pub struct Held<'a> {
    pub rest: &'a [u8],
}

impl<'a> Source for Held<'a> {
    ghost left = { λ h. Some h.rest.now };

    ghost faults = { λ _. 0 };

    /// Gives as many bytes as fit.
    fn read(&mut self, buf: &mut [u8]) -> Result<usize, Failed> {
        let count = self.rest.len().min(buf.len());
        let (given, rest) = self.rest.split_at(count);
        buf[..count].copy_from_slice(given);
        self.rest = rest;
        Ok(count)
    }
}
