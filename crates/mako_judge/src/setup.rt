//! What a script sets up.

use mako_model::Call;

/// The numbers and the programs of a script, of which any are taken.
#[derive(Drop)]
pub struct Setup {
    /// Roots of each mutator.
    pub roots: u32,
    /// Fields of the board.
    pub board: u8,
    /// Tablets of all servers.
    pub tablets: u32,
    /// Entries of each tablet.
    pub entries: u32,
    /// Words of each region.
    pub words: u32,
    /// How many cycles there may be.
    pub cycles: u32,
    /// How many objects an entry has one after another.
    pub generations: u32,
    /// The calls of each mutator. There are as many mutators as programs.
    pub programs: Vec<Vec<Call>>,
}
