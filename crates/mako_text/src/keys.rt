//! The keys of the first eleven lines of a script, each with the range of its number.

use mako_shape::RANGES;

/// How many lines there are.
pub const SETTINGS: usize = 11;

/// A key, and the range of its number.
#[derive(Clone, Copy)]
pub struct Key {
    pub word: &'static [u8],
    pub low: u32,
    pub high: u32,
}

/// The keys, in the order of their lines.
pub const KEYS: [Key; SETTINGS] = [
    Key {
        word: b"mako",
        low: 1,
        high: 1,
    },
    Key {
        word: b"servers",
        low: RANGES[1].0,
        high: RANGES[1].1,
    },
    Key {
        word: b"tablets",
        low: RANGES[2].0,
        high: RANGES[2].1,
    },
    Key {
        word: b"entries",
        low: RANGES[3].0,
        high: RANGES[3].1,
    },
    Key {
        word: b"words",
        low: RANGES[4].0,
        high: RANGES[4].1,
    },
    Key {
        word: b"spare",
        low: RANGES[5].0,
        high: RANGES[5].1,
    },
    Key {
        word: b"ring",
        low: RANGES[6].0,
        high: RANGES[6].1,
    },
    Key {
        word: b"roots",
        low: RANGES[7].0,
        high: RANGES[7].1,
    },
    Key {
        word: b"cycles",
        low: RANGES[8].0,
        high: RANGES[8].1,
    },
    Key {
        word: b"gens",
        low: RANGES[9].0,
        high: RANGES[9].1,
    },
    Key {
        word: b"board",
        low: 1,
        high: 14,
    },
];
