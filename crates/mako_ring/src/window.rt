//! The window of a ring's putter.

ghost use Rattle.std.specs.Prelude.{◌≡◌, ◌<◌, ◌≤◌, ◌^◌};
ghost use Rattle.mako_ring.specs.Windows.{IsWindow, found_room, head_up, tail_up};

/// What a ring's putter knows of it: `head` counts the words put, and `tail` the slots that it has
/// seen emptied. The same multiple of the ring's size is taken away from both, the one that keeps
/// `tail` below the size, so that no count runs out.
#[derive(Clone, Copy, Debug, PartialEq, Eq)]
pub struct Window {
    pub head: u64,
    pub tail: u64,
}

impl Window {
    /// One slot more was seen emptied, in a ring of `size` slots.
    pub fn tail_up(self, size: u64) -> Window
        requires window { IsWindow size self }
        requires some { self.tail < self.head }
        ensures { result ≡ tail_up size self }
    {
        if self.tail + 1 == size {
            return Window {
                head: self.head - size,
                tail: 0,
            };
        }
        Window {
            head: self.head,
            tail: self.tail + 1,
        }
    }

    /// The slot at the head was found empty, in a ring of `size` slots. A full window has thereby
    /// seen a slot emptied.
    pub fn found_room(self, size: u64) -> Window
        requires window { IsWindow size self }
        requires small { size < 2 ^ 32 }
        ensures { result ≡ found_room size self }
    {
        if self.head == self.tail + size {
            return self.tail_up(size);
        }
        self
    }

    /// One word more was put, into a ring of `size` slots.
    pub fn head_up(self, size: u64) -> Window
        requires window { IsWindow size self }
        requires small { size < 2 ^ 32 }
        ensures { result ≡ head_up self }
    {
        Window {
            head: self.head + 1,
            tail: self.tail,
        }
    }
}
