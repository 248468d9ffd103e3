//! The ten numbers of a geometry, and their ranges.

ghost use Rattle.std.specs.Prelude.{◌≡◌, position};
ghost use Rattle.mako_shape.specs.Limits.{fields, is_outside, tested};

/// The numbers of a geometry. A number that is said to be of a thing counts for each such thing.
#[derive(Clone, Copy, Debug, PartialEq, Eq)]
pub struct Numbers {
    pub mutators: u32,
    pub servers: u32,
    /// Tablets of a server.
    pub tablets: u32,
    /// Entries of a tablet.
    pub entries: u32,
    /// Words of a region.
    pub words: u32,
    /// Spare regions of a server.
    pub spare: u32,
    /// Slots of a ring.
    pub ring: u32,
    /// Roots of a mutator.
    pub roots: u32,
    pub cycles: u32,
    pub generations: u32,
}

/// The least and the greatest value of each of the ten numbers, in the order of the fields.
pub const RANGES: [(u32, u32); 10] = [
    (1, 16),
    (1, 8),
    (1, 256),
    (1, 1024),
    (16, 65_536),
    (1, 8),
    (1, 64),
    (1, 32),
    (0, 1_048_575),
    (1, 1_048_575),
];

impl Numbers {
    /// The place of the first number that is out of its range.
    pub(crate) fn first_out_of_range(self) -> Option<usize>
        ensures { result ≡ position is_outside (tested self) }
    {
        let numbers = self.in_order();
        numbers
            .iter()
            .zip(&RANGES)
            .position(|(number, (low, high))| number < low || number > high)
    }

    fn in_order(self) -> [u32; 10]
        ensures { result ≡ fields self }
    {
        [
            self.mutators,
            self.servers,
            self.tablets,
            self.entries,
            self.words,
            self.spare,
            self.ring,
            self.roots,
            self.cycles,
            self.generations,
        ]
    }
}
