//! The words of phases.

ghost use Rattle.std.specs.Prelude.{◌≡◌};
ghost use Rattle.mako_words.specs.Phases.{phase_word, FitsPhase, phase_at};
ghost use Rattle.mako_words.specs.Words.{Unpacks};

/// A phase of the collector, with its cycle (20 bits).
#[derive(Clone, Copy, Debug, PartialEq, Eq)]
pub enum PhaseWord {
    /// No cycle runs, and this one was the last.
    Idle(u32),
    /// The servers trace.
    Trace(u32),
    /// The servers evacuate and free.
    Evac(u32),
    /// All mutators are at their end, and so is the collector.
    Stop(u32),
}

impl PhaseWord {
    /// The word of this phase.
    pub fn pack(self) -> u64
        requires { FitsPhase self }
        ensures { result ≡ phase_word self }
    {
        match self {
            PhaseWord::Idle(cycle) => cycle as u64,
            PhaseWord::Trace(cycle) => cycle as u64 + 0x1_0000_0000,
            PhaseWord::Evac(cycle) => cycle as u64 + 0x2_0000_0000,
            PhaseWord::Stop(cycle) => cycle as u64 + 0x3_0000_0000,
        }
    }

    /// The phase of this word, or `None` where a bit beside the cycle's and the kind's is set.
    pub fn unpack(word: u64) -> Option<PhaseWord>
        ensures { Unpacks FitsPhase phase_word phase_at word result }
    {
        let cycle = word % 0x1_0000_0000;
        if cycle >= 0x10_0000 {
            return None;
        }
        match word / 0x1_0000_0000 {
            0 => Some(PhaseWord::Idle(cycle as u32)),
            1 => Some(PhaseWord::Trace(cycle as u32)),
            2 => Some(PhaseWord::Evac(cycle as u32)),
            3 => Some(PhaseWord::Stop(cycle as u32)),
            _ => None,
        }
    }
}
