//! Laws of the packed words, for every value and every word.

ghost use Rattle.std.specs.Prelude.{ℕ, ◌≡◌, ◌+◌, ◌-◌, ◌*◌, ◌<◌, ◌≤◌, ◌^◌, ◌↔◌, ◌⊎◌, ◌%◌, bit_and, bit_or, true, false};
ghost use Rattle.mako_words.specs.Entries.{entry_word, FitsEntry, entry_at, IsPackedEntry};
ghost use Rattle.mako_words.specs.Flags.{flag_word, FitsFlags, flag_at, IsPackedFlags, IsFlagStep};
ghost use Rattle.mako_words.specs.Gates.{gate_word, FitsGate, gate_at, count_of, IsPackedGate, IsGateWord};
ghost use Rattle.mako_words.specs.Lives.{live_word, FitsLive, live_at, IsPackedLive};
ghost use Rattle.mako_words.specs.Names.{name_word, FitsName, name_at, IsPackedName};
ghost use Rattle.mako_words.specs.Notices.{notice_word, FitsNotice, notice_at, IsPackedNotice};
ghost use Rattle.mako_words.specs.Phases.{phase_word, FitsPhase, phase_at, IsPackedPhase};
ghost use Rattle.mako_words.specs.Values.{value_word, FitsValue, value_at, IsPacked};
ghost use Rattle.mako_words.specs.Words.{IsPacking, all_but};

use crate::{FlagWord, GateWord};

/// Names and values are packed without loss. Their words are 0 for null, bit 62 with the 32 bits of a
/// number, and bit 63 with the 40 bits of a name.
pub fn value_words()
    ensures names { IsPacking FitsName name_word name_at }
    ensures values { IsPacking FitsValue value_word value_at }
    ensures name_forms { (w : ℕ) → IsPackedName w ↔ ((2 ^ 63 ≤ w) × (w < 2 ^ 63 + 2 ^ 40)) }
    ensures value_forms { (w : ℕ) → IsPacked w ↔
        ((w ≡ 0) ⊎ (((2 ^ 62 ≤ w) × (w < 2 ^ 62 + 2 ^ 32)) ⊎ IsPackedName w)) }
{}

/// Entries are packed without loss, and each word is that of an entry.
pub fn entry_words()
    ensures packing { IsPacking FitsEntry entry_word entry_at }
    ensures forms { (w : ℕ) → w < 2 ^ 64 → IsPackedEntry w }
{}

/// Gates are packed without loss, and their words are those below bit 17.
pub fn gate_words()
    ensures packing { IsPacking FitsGate gate_word gate_at }
    ensures forms { (w : ℕ) → IsPackedGate w ↔ (w < 2 ^ 17) }
{}

/// Phases are packed without loss, and their words have a cycle below bit 20 and one of four kinds.
pub fn phase_words()
    ensures packing { IsPacking FitsPhase phase_word phase_at }
    ensures forms { (w : ℕ) → IsPackedPhase w ↔ ((w < 2 ^ 34) × (w % 2 ^ 32 < 2 ^ 20)) }
{}

/// Flags are packed without loss, and their words are those below bit 3.
pub fn flag_words()
    ensures packing { IsPacking FitsFlags flag_word flag_at }
    ensures forms { (w : ℕ) → IsPackedFlags w ↔ (w < 2 ^ 3) }
{}

/// Live counts are packed without loss, and their words are those below bit 52.
pub fn live_words()
    ensures packing { IsPacking FitsLive live_word live_at }
    ensures forms { (w : ℕ) → IsPackedLive w ↔ (w < 2 ^ 52) }
{}

/// Notices are packed without loss, and their words are 1 and those of names.
pub fn notice_words()
    ensures packing { IsPacking FitsNotice notice_word notice_at }
    ensures forms { (w : ℕ) → IsPackedNotice w ↔ ((w ≡ 1) ⊎ IsPackedName w) }
{}

/// What one step does to the word of a gate. To add or subtract 1 changes the count, and to or the
/// shut bit in, or and it away, changes whether it is shut; neither changes the other.
pub fn gate_steps()
    ensures arrive { (w : ℕ) → w < 2 ^ 17 → count_of w + 1 < 2 ^ 16 →
        IsGateWord (w + 1) (record (gate_at w) { count = count_of w + 1 }) }
    ensures leave { (w : ℕ) → w < 2 ^ 17 → 0 < count_of w →
        IsGateWord (w - 1) (record (gate_at w) { count = count_of w - 1 }) }
    ensures shut { (w : ℕ) → w < 2 ^ 17 →
        IsGateWord (bit_or w GateWord.SHUT) (record (gate_at w) { shut = true }) }
    ensures reopen { (w : ℕ) → w < 2 ^ 17 →
        IsGateWord (bit_and w (all_but GateWord.SHUT)) (record (gate_at w) { shut = false }) }
{}

/// What one step does to the word of flags. To or bits in raises those flags, and to and a bit away
/// lowers that flag; the others stay as they are.
pub fn flag_steps()
    ensures raise_busy { IsFlagStep (λ w. bit_or w FlagWord.BUSY) (λ f. record f { busy = true }) }
    ensures lower_busy { IsFlagStep (λ w. bit_and w (all_but FlagWord.BUSY)) (λ f. record f { busy = false }) }
    ensures raise_ghost { IsFlagStep (λ w. bit_or w FlagWord.GHOST) (λ f. record f { ghost_ = true }) }
    ensures lower_ghost { IsFlagStep (λ w. bit_and w (all_but FlagWord.GHOST)) (λ f. record f { ghost_ = false }) }
    ensures raise_changed { IsFlagStep (λ w. bit_or w FlagWord.CHANGED) (λ f. record f { changed = true }) }
    ensures lower_changed { IsFlagStep (λ w. bit_and w (all_but FlagWord.CHANGED)) (λ f. record f { changed = false }) }
    ensures receive { IsFlagStep (λ w. bit_or w (FlagWord.BUSY + FlagWord.CHANGED))
        (λ f. record f { busy = true; changed = true }) }
    ensures send { IsFlagStep (λ w. bit_or w (FlagWord.GHOST + FlagWord.CHANGED))
        (λ f. record f { ghost_ = true; changed = true }) }
{}
