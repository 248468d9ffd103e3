//! Why ten numbers are no geometry.

/// The first reason, in this order, for which the numbers are no geometry.
#[derive(Clone, Copy, Debug, PartialEq, Eq)]
pub enum ShapeFault {
    /// A number is out of its range; the place of the first such field, from 0.
    OutOfRange(u8),
    /// The tablets of all servers have more than 1,048,576 entries together.
    TooManyEntries,
    /// All areas together have more than 4,194,304 words.
    TooManyWords,
}
