//! What is read from packed words.

ghost use Rattle.std.specs.Prelude.{◌≡◌};
ghost use Rattle.mako_words.specs.Entries.{FitsEntry, entry_at};
ghost use Rattle.mako_words.specs.Names.{IsPackedName, name_at};
ghost use Rattle.mako_words.specs.Values.{FitsValue, IsPacked, value_at};

use mako_words::{EntryWord, Name, Value};

/// The value of a word that is a value's.
pub(crate) fn value_of(word: u64) -> Value
    requires { IsPacked word }
    ensures value { result ≡ value_at word }
    ensures fits { FitsValue result }
{
    match Value::unpack(word) {
        Some(value) => value,
        None => unreachable!(),
    }
}

/// The name of a word that is a name's.
pub(crate) fn name_of(word: u64) -> Name
    requires { IsPackedName word }
    ensures { result ≡ name_at word }
{
    match Value::unpack(word) {
        Some(Value::Ref(name)) => name,
        _ => unreachable!(),
    }
}

/// The entry of a word. Each word is that of an entry.
pub(crate) fn entry_of(word: u64) -> EntryWord
    ensures entry { result ≡ entry_at word }
    ensures fits { FitsEntry result }
{
    match EntryWord::unpack(word) {
        Some(entry) => entry,
        None => unreachable!(),
    }
}
