//! The words of live counts.

ghost use Rattle.std.specs.Prelude.{◌≡◌};
ghost use Rattle.mako_words.specs.Lives.{live_word, FitsLive, live_at};
ghost use Rattle.mako_words.specs.Words.{Unpacks};

/// How many words of a tablet were marked in a cycle (20 bits).
#[derive(Clone, Copy, Debug, PartialEq, Eq)]
pub struct LiveWord {
    pub cycle: u32,
    pub words: u32,
}

impl LiveWord {
    /// The word of this count.
    pub fn pack(self) -> u64
        requires { FitsLive self }
        ensures { result ≡ live_word self }
    {
        self.words as u64 + self.cycle as u64 * 0x1_0000_0000
    }

    /// The count of this word, or `None` where a bit from 52 on is set.
    pub fn unpack(word: u64) -> Option<LiveWord>
        ensures { Unpacks FitsLive live_word live_at word result }
    {
        if word >= 0x10_0000_0000_0000 {
            return None;
        }
        Some(LiveWord {
            cycle: (word / 0x1_0000_0000) as u32,
            words: (word % 0x1_0000_0000) as u32,
        })
    }
}
