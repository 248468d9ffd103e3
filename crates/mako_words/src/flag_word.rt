//! The words of servers' flags.

ghost use Rattle.std.specs.Prelude.{◌≡◌};
ghost use Rattle.mako_words.specs.Flags.{flag_word, FitsFlags, flag_at};
ghost use Rattle.mako_words.specs.Words.{Unpacks};

/// A server's flags: it has work in hand, a name that it sent to another server may not have been
/// taken yet, and either has changed since the collector last asked.
#[derive(Clone, Copy, Debug, PartialEq, Eq)]
pub struct FlagWord {
    pub busy: bool,
    pub ghost_: bool,
    pub changed: bool,
}

impl FlagWord {
    /// The bit of a busy server.
    pub const BUSY: u64 = 1;
    /// The bit of a server with a name on its way.
    pub const GHOST: u64 = 2;
    /// The bit of a change.
    pub const CHANGED: u64 = 4;

    /// The word of these flags.
    pub fn pack(self) -> u64
        ensures { result ≡ flag_word self }
    {
        let busy = if self.busy { Self::BUSY } else { 0 };
        let ghost_ = if self.ghost_ { Self::GHOST } else { 0 };
        let changed = if self.changed { Self::CHANGED } else { 0 };
        busy + ghost_ + changed
    }

    /// The flags of this word, or `None` where a bit from 3 on is set.
    pub fn unpack(word: u64) -> Option<FlagWord>
        ensures { Unpacks FitsFlags flag_word flag_at word result }
    {
        if word >= 8 {
            return None;
        }
        Some(FlagWord {
            busy: word % 2 == 1,
            ghost_: word / 2 % 2 == 1,
            changed: word / 4 % 2 == 1,
        })
    }
}
