//! A sink of one's own: the text is kept in memory.

ghost use Rattle.std.specs.Prelude.{Some};

use mako_io::{Failed, Sink};

/// The text so far, and how often there was not memory enough for more of it.
#[derive(Drop)]
pub struct Kept {
    pub text: Vec<u8>,
    pub faults: u64,
}

impl Sink for Kept {
    ghost taken = { λ k. Some k.text.items };

    ghost faults = { λ k. k.faults };

    /// Takes the whole piece, or fails.
    fn write(&mut self, bytes: &[u8]) -> Result<usize, Failed> {
        match self.text.extend_from_slice(bytes) {
            Ok(()) => Ok(bytes.len()),
            Err(_) => {
                self.faults = self.faults.saturating_add(1);
                Err(Failed)
            }
        }
    }
}
