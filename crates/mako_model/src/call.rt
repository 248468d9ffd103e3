//! The calls that a mutator makes.

/// A call of a mutator. Roots are numbered below the geometry's number of roots, an object has at most 14 fields.
#[derive(Clone, Copy, Debug, PartialEq, Eq)]
pub enum Call {
    /// Makes an object of null fields and puts its name into the root.
    New { root: u8, fields: u8 },
    /// The root becomes a number.
    Num { root: u8, value: u32 },
    /// One root becomes the value of another.
    CopyRoot { to: u8, from: u8 },
    /// The root becomes null.
    DropRoot { root: u8 },
    /// A root becomes the value of a field of the object that another root names.
    Get { to: u8, from: u8, field: u8 },
    /// A field of the object that one root names becomes the value of another root.
    Put { to: u8, field: u8, from: u8 },
    /// Changes nothing, and tells the value of the root.
    Show { root: u8 },
    /// Asks for the next cycle of the collector, and waits for its end.
    Collect,
}
