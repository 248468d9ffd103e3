//! The index of each word of a geometry.

ghost use Rattle.std.specs.Prelude.{◌≡◌, ◌<◌, ◌+◌, ◌*◌};
ghost use Rattle.mako_shape.specs.Places as places;
ghost use Rattle.mako_shape.specs.Places.{Within, index, start, total};

use crate::shape::Shape;

#[tactic(auto, using(crate::proofs::Products::are_small), unfolding(crate::specs::Places::total, crate::specs::Places::index, crate::specs::Starting::starts_of))]
impl Shape {
    /// The number of words of all areas.
    pub fn words(&self) -> u32
        ensures { result ≡ total self.now }
    {
        self.starts.all_words
    }

    /// The index of the phase word.
    pub fn phase(&self) -> u32
        ensures index { result ≡ index self.now places.phase }
        ensures below { result < total self.now }
    {
        0
    }

    /// The index of the demand word: the greatest cycle that a mutator asked for.
    pub fn demand(&self) -> u32
        ensures index { result ≡ index self.now places.demand }
        ensures below { result < total self.now }
    {
        1
    }

    /// The index of the finished word: how many mutators are at their end.
    pub fn finished(&self) -> u32
        ensures index { result ≡ index self.now places.finished }
        ensures below { result < total self.now }
    {
        2
    }

    /// The index of a mutator's gate.
    pub fn mutator_gate(&self, mutator: u32) -> u32
        requires { Within self.now (places.mutator_gate mutator) }
        ensures index { result ≡ index self.now (places.mutator_gate mutator) }
        ensures below { result < total self.now }
    {
        self.numbers().mutator_gates_start() + mutator
    }

    /// The index of a root of a mutator.
    pub fn root(&self, mutator: u32, number: u32) -> u32
        requires { Within self.now (places.root mutator number) }
        ensures index { result ≡ index self.now (places.root mutator number) }
        ensures below { result < total self.now }
    {
        let numbers = self.numbers();
        numbers.roots_start() + mutator * numbers.roots + number
    }

    /// The index of a slot of a mutator's barrier ring.
    pub fn barrier(&self, mutator: u32, slot: u32) -> u32
        requires { Within self.now (places.barrier mutator slot) }
        ensures index { result ≡ index self.now (places.barrier mutator slot) }
        ensures below { result < total self.now }
    {
        let numbers = self.numbers();
        numbers.barriers_start() + mutator * numbers.ring + slot
    }

    /// The index of a server's flags.
    pub fn flags(&self, server: u32) -> u32
        requires { Within self.now (places.flags server) }
        ensures index { result ≡ index self.now (places.flags server) }
        ensures below { result < total self.now }
    {
        self.numbers().flags_start() + server
    }

    /// The index of a slot of a server's work ring.
    pub fn work(&self, server: u32, slot: u32) -> u32
        requires { Within self.now (places.work server slot) }
        ensures index { result ≡ index self.now (places.work server slot) }
        ensures below { result < total self.now }
    {
        let numbers = self.numbers();
        numbers.works_start() + server * numbers.ring + slot
    }

    /// The index of a slot of the ghost ring from one server to another.
    pub fn ghost_(&self, sender: u32, receiver: u32, slot: u32) -> u32
        requires { Within self.now (places.ghost sender receiver slot) }
        ensures index { result ≡ index self.now (places.ghost sender receiver slot) }
        ensures below { result < total self.now }
    {
        let numbers = self.numbers();
        numbers.ghosts_start() + (sender * numbers.servers + receiver) * numbers.ring + slot
    }

    /// The index of a slot of a server's notice ring.
    pub fn notice(&self, server: u32, slot: u32) -> u32
        requires { Within self.now (places.notice server slot) }
        ensures index { result ≡ index self.now (places.notice server slot) }
        ensures below { result < total self.now }
    {
        let numbers = self.numbers();
        numbers.notices_start() + server * numbers.ring + slot
    }

    /// The index of a tablet's gate.
    pub fn tablet_gate(&self, tablet: u32) -> u32
        requires { Within self.now (places.tablet_gate tablet) }
        ensures index { result ≡ index self.now (places.tablet_gate tablet) }
        ensures below { result < total self.now }
    {
        self.tablet_word(0, tablet)
    }

    /// The index of a tablet's word in the area behind so many of those that have a word for each tablet.
    fn tablet_word(&self, areas: u32, tablet: u32) -> u32
        requires area { areas < 6 }
        requires tablet { tablet < self.now.servers * self.now.tablets }
        ensures { result ≡ start self.now 10 + areas * (self.now.servers * self.now.tablets) + tablet }
    {
        self.starts.tablet_gates + areas * self.numbers().all_tablets() + tablet
    }

    /// The index of a tablet's turn word.
    pub fn turn(&self, tablet: u32) -> u32
        requires { Within self.now (places.turn tablet) }
        ensures index { result ≡ index self.now (places.turn tablet) }
        ensures below { result < total self.now }
    {
        self.tablet_word(1, tablet)
    }

    /// The index of the word that holds a tablet's home region.
    pub fn home(&self, tablet: u32) -> u32
        requires { Within self.now (places.home tablet) }
        ensures index { result ≡ index self.now (places.home tablet) }
        ensures below { result < total self.now }
    {
        self.tablet_word(2, tablet)
    }

    /// The index of the word that holds how many words of its home a tablet uses.
    pub fn top(&self, tablet: u32) -> u32
        requires { Within self.now (places.top tablet) }
        ensures index { result ≡ index self.now (places.top tablet) }
        ensures below { result < total self.now }
    {
        self.tablet_word(3, tablet)
    }

    /// The index of the word that holds the region that a tablet leaves.
    pub fn leaving(&self, tablet: u32) -> u32
        requires { Within self.now (places.leaving tablet) }
        ensures index { result ≡ index self.now (places.leaving tablet) }
        ensures below { result < total self.now }
    {
        self.tablet_word(4, tablet)
    }

    /// The index of the word that holds a tablet's count of live words.
    pub fn live(&self, tablet: u32) -> u32
        requires { Within self.now (places.live tablet) }
        ensures index { result ≡ index self.now (places.live tablet) }
        ensures below { result < total self.now }
    {
        self.tablet_word(5, tablet)
    }

    /// The index of a table entry.
    pub fn entry(&self, entry: u32) -> u32
        requires { Within self.now (places.entry entry) }
        ensures index { result ≡ index self.now (places.entry entry) }
        ensures below { result < total self.now }
    {
        self.starts.entries + entry
    }

    /// The index of the first word of a region.
    pub fn region(&self, region: u32) -> u32
        requires { Within self.now (places.region_word region 0) }
        ensures index { result ≡ index self.now (places.region_word region 0) }
        ensures below { result < total self.now }
    {
        let numbers = self.numbers();
        self.starts.regions + region * numbers.words
    }
}
