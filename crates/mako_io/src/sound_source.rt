//! A source over memory that never fails.

ghost use Rattle.std.specs.Prelude.{◌≡◌, ◌++◌, ℕ, List, length, take, min, Some};

use crate::rest::Rest;
use crate::source::{Failed, Source};
use std::marker::Model;

/// Gives these bytes. Contracts see those still to come. No read fails.
#[derive(Drop)]
pub struct SoundSource {
    rest: Rest,
}

impl Model for SoundSource {
    ghost Value = { List ℕ };

    ghost view = { λ s. s.rest };
}

impl SoundSource {
    /// A source of these bytes.
    pub fn new(bytes: Vec<u8>) -> SoundSource
        ensures { result ≡ bytes.items }
    {
        SoundSource {
            rest: Rest::new(bytes),
        }
    }
}

impl Source for SoundSource {
    ghost left = { λ s. Some s };

    ghost faults = { λ _. 0 };

    /// Gives as many bytes as fit.
    fn read(&mut self, buf: &mut [u8]) -> Result<usize, Failed>
        ensures count { result ≡ Ok (min (length buf.old) (length self.old)) }
        ensures given { self.old ≡ take (min (length buf.old) (length self.old)) buf.new ++ self.new }
    {
        Ok(self.rest.give(buf))
    }
}
