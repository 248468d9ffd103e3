//! Who evacuates, in which heap and cycle.

ghost use Rattle.std.specs.Prelude.{◌≡◌, ◌≤◌, ◌+◌, ◌*◌};
ghost use Rattle.mako_evac.specs.Owners.{IsOwner, first_tablet, tablets_end, first_entry};

use mako_shape::Shape;

/// The server that owns tablets and their entries, in a cycle.
#[derive(Clone, Copy)]
pub struct Owner {
    pub shape: Shape,
    pub server: u32,
    pub cycle: u32,
}

impl Owner {
    /// The first of its tablets.
    pub(crate) fn first_tablet(&self) -> u32
        requires { IsOwner self.now }
        ensures tablet { result ≡ first_tablet self.now }
        ensures below { result ≤ self.now.shape.servers * self.now.shape.tablets }
    {
        self.server * self.shape.numbers().tablets
    }

    /// The tablet behind the last of its own.
    pub(crate) fn tablets_end(&self) -> u32
        requires { IsOwner self.now }
        ensures tablet { result ≡ tablets_end self.now }
        ensures below { result ≤ self.now.shape.servers * self.now.shape.tablets }
    {
        (self.server + 1) * self.shape.numbers().tablets
    }

    /// The first entry of a tablet, or behind the last tablet the number of all entries.
    pub(crate) fn first_entry(&self, tablet: u32) -> u32
        requires owner { IsOwner self.now }
        requires tablet { tablet ≤ self.now.shape.servers * self.now.shape.tablets }
        ensures { result ≡ first_entry self.now.shape tablet }
    {
        tablet * self.shape.numbers().entries
    }
}
