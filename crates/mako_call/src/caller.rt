//! Who makes a call, in which heap.

ghost use Rattle.std.specs.Prelude.{◌≡◌, ◌<◌, ◌*◌};
ghost use Rattle.mako_shape.specs.Belongings.{tablet_of_entry};
ghost use Rattle.mako_shape.specs.Limits.{all_entries};
ghost use Rattle.mako_shape.specs.Places.{index, total, mutator_gate, root};
ghost use Rattle.mako_call.specs.Callers.{IsCaller};

use mako_shape::Shape;
use mako_step::Step;

/// A mutator of a heap, by its number.
#[derive(Clone, Copy)]
pub struct Caller {
    pub shape: Shape,
    pub mutator: u32,
}

impl Caller {
    /// The index of its own gate.
    pub(crate) fn gate(&self) -> u32
        requires { IsCaller self.now }
        ensures index { result ≡ index self.now.shape (mutator_gate self.now.mutator) }
        ensures below { result < total self.now.shape }
    {
        self.shape.mutator_gate(self.mutator)
    }

    /// The index of the root with this number.
    pub(crate) fn root(&self, number: u8) -> u32
        requires caller { IsCaller self.now }
        requires root { number < self.now.shape.roots }
        ensures index { result ≡ index self.now.shape (root self.now.mutator number) }
        ensures below { result < total self.now.shape }
    {
        self.shape.root(self.mutator, u32::from(number))
    }

    /// The tablet of the entry with this number.
    pub(crate) fn tablet_of(&self, entry: u32) -> u32
        requires caller { IsCaller self.now }
        requires entry { entry < all_entries self.now.shape }
        ensures tablet { result ≡ tablet_of_entry self.now.shape entry }
        ensures below { result < self.now.shape.servers * self.now.shape.tablets }
    {
        entry / self.shape.numbers().entries
    }
}
