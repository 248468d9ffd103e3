//! What a root or a field holds.

ghost use Rattle.std.specs.Prelude.{◌≡◌, Some};
ghost use Rattle.mako_words.specs.Values.{value_word, FitsValue, value_at, value_text};
ghost use Rattle.mako_words.specs.Words.{Unpacks};

use crate::name::Name;
use std::fmt;

/// What a root or a field holds.
#[derive(Clone, Copy, Debug, PartialEq, Eq)]
pub enum Value {
    Null,
    Num(u32),
    Ref(Name),
}

impl Value {
    /// The word of this value. The entry and the generation of a name have at most 20 bits.
    pub fn pack(self) -> u64
        requires { FitsValue self }
        ensures { result ≡ value_word self }
    {
        match self {
            Value::Null => 0,
            Value::Num(number) => number as u64 + 0x4000_0000_0000_0000,
            Value::Ref(name) => {
                name.entry as u64 + name.generation as u64 * 0x10_0000 + 0x8000_0000_0000_0000
            }
        }
    }

    /// The value of this word, or `None` where it is the word of no value.
    pub fn unpack(word: u64) -> Option<Value>
        ensures { Unpacks FitsValue value_word value_at word result }
    {
        if word == 0 {
            return Some(Value::Null);
        }
        if word < 0x4000_0000_0000_0000 {
            return None;
        }
        if word < 0x4000_0001_0000_0000 {
            return Some(Value::Num((word - 0x4000_0000_0000_0000) as u32));
        }
        if word < 0x8000_0000_0000_0000 {
            return None;
        }
        let rest = word - 0x8000_0000_0000_0000;
        if rest >= 0x100_0000_0000 {
            return None;
        }
        Some(Value::Ref(Name {
            entry: (rest % 0x10_0000) as u32,
            generation: (rest / 0x10_0000) as u32,
        }))
    }
}

/// Writes `null`, the number in decimal, or the name.
impl fmt::Display for Value {
    ghost output = { λ v. Some (value_text v) };

    fn fmt<W: fmt::Write>(&self, f: &mut fmt::Formatter<W>) -> fmt::Result {
        match self {
            Value::Null => write!(f, "null"),
            Value::Num(number) => write!(f, "{number}"),
            Value::Ref(name) => write!(f, "{name}"),
        }
    }
}
