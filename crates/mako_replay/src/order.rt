//! The order in which the seats of a replay step.

/// The order in which the seats of a replay step.
#[derive(Clone, Copy, Debug, PartialEq, Eq)]
pub enum Order {
    /// Rounds over all seats.
    Turns,
    /// As a generator with this seed draws them.
    Seed(u64),
}
