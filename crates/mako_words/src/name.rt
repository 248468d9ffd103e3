//! Names of objects.

ghost use Rattle.std.specs.Prelude.{Some};
ghost use Rattle.mako_words.specs.Names.{name_text};

use std::fmt;

/// An object's name: the index of its table entry, and the entry's generation when the object was made.
#[derive(Clone, Copy, Debug, PartialEq, Eq, PartialOrd, Ord, Hash)]
pub struct Name {
    pub entry: u32,
    pub generation: u32,
}

/// Writes the entry, `#` and the generation, as `1#0`.
impl fmt::Display for Name {
    ghost output = { λ n. Some (name_text n) };

    fn fmt<W: fmt::Write>(&self, f: &mut fmt::Formatter<W>) -> fmt::Result {
        let entry = self.entry;
        let generation = self.generation;
        write!(f, "{entry}#{generation}")
    }
}
