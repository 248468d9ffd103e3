//! What is read from packed words.

ghost use Rattle.std.specs.Prelude.{◌≡◌};
ghost use Rattle.mako_words.specs.Entries as entries;
ghost use Rattle.mako_words.specs.Phases.{IsPackedPhase, phase_at};
ghost use Rattle.mako_words.specs.Values.{IsPacked, value_at};

use mako_words::{EntryWord, PhaseWord, Value};

/// The value of a word that is a value's.
pub(crate) fn value_of(word: u64) -> Value
    requires { IsPacked word }
    ensures { result ≡ value_at word }
{
    match Value::unpack(word) {
        Some(value) => value,
        None => unreachable!(),
    }
}

/// The phase of a word that is a phase's.
pub(crate) fn phase_of(word: u64) -> PhaseWord
    requires { IsPackedPhase word }
    ensures { result ≡ phase_at word }
{
    match PhaseWord::unpack(word) {
        Some(phase) => phase,
        None => unreachable!(),
    }
}

/// The entry of a word. Each word is that of an entry.
pub(crate) fn entry_of(word: u64) -> EntryWord
    ensures { result ≡ entries.entry_at word }
{
    match EntryWord::unpack(word) {
        Some(entry) => entry,
        None => unreachable!(),
    }
}
