//! The words of table entries.

ghost use Rattle.std.specs.Prelude.{◌≡◌, IsSomeAnd};
ghost use Rattle.mako_words.specs.Entries.{entry_word, FitsEntry, entry_at};

/// A table entry: whether it is taken, its generation (20 bits), the epoch in which its object was
/// made or marked (20 bits), and the index of the record's header among all words (23 bits).
#[derive(Clone, Copy, Debug, PartialEq, Eq)]
pub struct EntryWord {
    pub taken: bool,
    pub generation: u32,
    pub epoch: u32,
    pub address: u32,
}

impl EntryWord {
    /// The word of this entry.
    pub fn pack(self) -> u64
        requires { FitsEntry self }
        ensures { result ≡ entry_word self }
    {
        let low = self.address as u64
            + self.epoch as u64 * 0x80_0000
            + self.generation as u64 * 0x800_0000_0000;
        if self.taken {
            low + 0x8000_0000_0000_0000
        } else {
            low
        }
    }

    /// The entry of this word. Each word is the word of one entry.
    pub fn unpack(word: u64) -> Option<EntryWord>
        ensures { IsSomeAnd result (λ e. FitsEntry e × (entry_word e ≡ word) × (e ≡ entry_at word)) }
    {
        Some(EntryWord {
            taken: word >= 0x8000_0000_0000_0000,
            generation: (word / 0x800_0000_0000 % 0x10_0000) as u32,
            epoch: (word / 0x80_0000 % 0x10_0000) as u32,
            address: (word % 0x80_0000) as u32,
        })
    }
}
