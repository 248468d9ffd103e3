//! What a `new` comes to.

use mako_model::Pause;
use mako_words::Name;

/// What a `new` comes to once it has gone over the tablets.
#[derive(Clone, Copy, Debug, PartialEq, Eq)]
pub enum Found {
    /// The object of this name stands in this tablet, whose gate the mutator has arrived at and whose
    /// turn it holds.
    Made { name: Name, tablet: u32 },
    /// No tablet has room, or none has a free entry.
    Full,
    /// Nothing was made, and some tablet could not be tried. This is the first reason that was met.
    Pause(Pause),
}
