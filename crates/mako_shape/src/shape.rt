//! A geometry whose numbers are tested, and the index of each word.

ghost use Rattle.std.specs.Prelude.{◌≡◌, ◌↔◌, ◌<◌, IfOk};

use crate::areas::Starts;
use crate::fault::ShapeFault;
use crate::numbers::Numbers;
use std::marker::Model;

/// A geometry: ten numbers that are in their ranges, with entries and words within their limits. It keeps where its
/// largest areas start, so that an index of them is found at once.
#[derive(Clone, Copy, Debug, PartialEq, Eq)]
pub struct Shape {
    numbers: Numbers,
    pub(crate) starts: Starts,
}

impl Model for Shape {
    ghost use Rattle.mako_shape.specs.declared.numbers.Numbers.{Numbers};

    ghost Value = { Numbers };

    ghost use Rattle.std.specs.Prelude.{◌≡◌};
    ghost use Rattle.mako_shape.specs.Limits.{IsShape};
    ghost use Rattle.mako_shape.specs.Starting.{starts_of};

    ghost view = { λ s. s.numbers };

    ghost invariant = { λ s. IsShape s.numbers × (s.starts ≡ starts_of s.numbers) };

    ghost inverse = { λ n. record { numbers = n; starts = starts_of n } };
}

/// The most entries that all tablets may have together.
const MAX_ENTRIES: u32 = 1_048_576;

/// The most words that all areas may have together: 32 MiB.
const MAX_WORDS: u32 = 4_194_304;

impl Shape {
    ghost use Rattle.mako_shape.specs.declared.fault.ShapeFault.{ShapeFault};
    ghost use Rattle.mako_shape.specs.Limits.{IsShape, IsFault};

    /// The geometry of these numbers. The faults are looked for in the order of `ShapeFault`.
    pub fn new(numbers: Numbers) -> Result<Shape, ShapeFault>
        ensures shape { IfOk result (λ s. (s ≡ numbers) × IsShape s) }
        ensures fault { (f : ShapeFault) → (result ≡ Err f) ↔ IsFault numbers f }
    {
        if let Some(place) = numbers.first_out_of_range() {
            return Err(ShapeFault::OutOfRange(place as u8));
        }
        if numbers.all_entries() > MAX_ENTRIES {
            return Err(ShapeFault::TooManyEntries);
        }
        if numbers.all_words() > MAX_WORDS {
            return Err(ShapeFault::TooManyWords);
        }
        Ok(Shape {
            numbers,
            starts: numbers.starts(),
        })
    }

    /// The numbers of this geometry.
    pub fn numbers(&self) -> Numbers
        ensures numbers { result ≡ self.now }
        ensures shape { IsShape self.now }
    {
        self.numbers
    }
}
