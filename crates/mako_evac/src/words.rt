//! What is read from packed words.

ghost use Rattle.std.specs.Prelude.{◌≡◌};
ghost use Rattle.mako_gate.specs.Shutting.{is_counting};
ghost use Rattle.mako_words.specs.Entries as entries;

use mako_words::{EntryWord, GateWord};

/// The entry of a word. Each word is that of an entry.
pub(crate) fn entry_of(word: u64) -> EntryWord
    ensures { result ≡ entries.entry_at word }
{
    match EntryWord::unpack(word) {
        Some(entry) => entry,
        None => unreachable!(),
    }
}

/// Whether a gate with this word counts somebody.
pub(crate) fn counts_somebody(word: u64) -> bool
    ensures { result ≡ is_counting word }
{
    word % GateWord::SHUT > 0
}
