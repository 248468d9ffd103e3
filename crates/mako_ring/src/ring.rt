//! The rings of the heap.

ghost use Rattle.std.specs.Prelude.{◌≡◌, ◌<◌, ◌^◌};
ghost use Rattle.mako_shape.specs.Places.{index, total};
ghost use Rattle.mako_ring.specs.Contents.{after_place};

use mako_shape::Shape;

/// A ring of slots, by its kind and the numbers of its two ends. An empty slot is 0: the slot itself
/// says whether it is filled, as in FastForward (Giacomoni, Moseley and Vachharajani, PPoPP 2008).
#[derive(Clone, Copy, Debug, PartialEq, Eq)]
pub enum Ring {
    /// From this mutator to the collector.
    Barrier(u32),
    /// From the collector to this server.
    Work(u32),
    /// From one server to another.
    Ghost { sender: u32, receiver: u32 },
    /// From this server to the collector.
    Notice(u32),
}

impl Ring {
    ghost use Rattle.mako_ring.specs.Rings.{IsRing, slot_place};

    /// The index of one of the ring's slots among all words.
    pub fn slot(self, shape: &Shape, place: u32) -> u32
        requires ring { IsRing shape.now self }
        requires below { place < shape.now.ring }
        ensures index { result ≡ index shape.now (slot_place self place) }
        ensures within { result < total shape.now }
    {
        match self {
            Ring::Barrier(mutator) => shape.barrier(mutator, place),
            Ring::Work(server) => shape.work(server, place),
            Ring::Ghost { sender, receiver } => shape.ghost_(sender, receiver, place),
            Ring::Notice(server) => shape.notice(server, place),
        }
    }
}

/// The place behind this one, around a ring of `size` slots.
pub fn next_place(size: u64, at: u64) -> u64
    requires small { size < 2 ^ 32 }
    requires position { at < size }
    ensures next { result ≡ after_place size at }
    ensures below { result < size }
{
    if at + 1 == size { 0 } else { at + 1 }
}
