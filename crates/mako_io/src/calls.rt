//! Which calls fail, by their numbers.

ghost use Rattle.std.specs.Prelude.{◌≡◌, ◌↔◌, IsTrue, Contains};
ghost use Rattle.mako_io.specs.Causes.{raised};

/// The number of calls so far, and the numbers of those that fail, from 1.
#[derive(Drop)]
pub struct Calls {
    pub made: u64,
    pub fails: Vec<u64>,
}

impl Calls {
    /// Counts a call, and answers whether it is one that fails.
    pub fn next_fails(&mut self) -> bool
        ensures made { self.new.made ≡ raised self.old.made }
        ensures fails { self.new.fails ≡ self.old.fails }
        ensures value { IsTrue result ↔ Contains self.old.fails.items (raised self.old.made) }
    {
        self.made = self.made.saturating_add(1);
        self.fails.contains(&self.made)
    }
}
