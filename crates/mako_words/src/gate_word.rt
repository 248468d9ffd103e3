//! The words of gates.

ghost use Rattle.std.specs.Prelude.{◌≡◌};
ghost use Rattle.mako_words.specs.Gates.{gate_word, FitsGate, gate_at};
ghost use Rattle.mako_words.specs.Words.{Unpacks};

/// A gate: how many have arrived and not left, and whether it is shut.
#[derive(Clone, Copy, Debug, PartialEq, Eq)]
pub struct GateWord {
    pub count: u16,
    pub shut: bool,
}

impl GateWord {
    /// The bit of a shut gate.
    pub const SHUT: u64 = 0x1_0000;

    /// The word of this gate.
    pub fn pack(self) -> u64
        ensures { result ≡ gate_word self }
    {
        if self.shut {
            self.count as u64 + Self::SHUT
        } else {
            self.count as u64
        }
    }

    /// The gate of this word, or `None` where a bit from 17 on is set.
    pub fn unpack(word: u64) -> Option<GateWord>
        ensures { Unpacks FitsGate gate_word gate_at word result }
    {
        if word >= 2 * Self::SHUT {
            return None;
        }
        Some(GateWord {
            count: (word % Self::SHUT) as u16,
            shut: word >= Self::SHUT,
        })
    }
}
