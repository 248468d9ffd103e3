//! Where the areas of words start, and how large they are together. They follow each other without gaps.

ghost use Rattle.std.specs.Prelude.{◌≡◌, ◌*◌};
ghost use Rattle.mako_shape.specs.Limits.{AllInRange, all_entries};
ghost use Rattle.mako_shape.specs.Places.{start, total};
ghost use Rattle.mako_shape.specs.Starting.{starts_of};

use crate::numbers::Numbers;

/// The index of the first word of the areas that are read and written most, and the words of all areas.
#[derive(Clone, Copy, Debug, PartialEq, Eq)]
pub(crate) struct Starts {
    pub(crate) tablet_gates: u32,
    pub(crate) entries: u32,
    pub(crate) regions: u32,
    pub(crate) all_words: u32,
}

#[tactic(auto, using(crate::proofs::Products::are_small), unfolding(crate::specs::Places::total))]
impl Numbers {
    /// The tablets of all servers.
    pub(crate) fn all_tablets(self) -> u32
        requires { AllInRange self }
        ensures { result ≡ self.servers * self.tablets }
    {
        self.servers * self.tablets
    }

    /// The entries of all tablets.
    pub(crate) fn all_entries(self) -> u32
        requires { AllInRange self }
        ensures { result ≡ all_entries self }
    {
        self.all_tablets() * self.entries
    }

    pub(crate) fn mutator_gates_start(self) -> u32
        requires { AllInRange self }
        ensures { result ≡ start self 3 }
    {
        3
    }

    pub(crate) fn roots_start(self) -> u32
        requires { AllInRange self }
        ensures { result ≡ start self 4 }
    {
        self.mutator_gates_start() + self.mutators
    }

    pub(crate) fn barriers_start(self) -> u32
        requires { AllInRange self }
        ensures { result ≡ start self 5 }
    {
        self.roots_start() + self.mutators * self.roots
    }

    pub(crate) fn flags_start(self) -> u32
        requires { AllInRange self }
        ensures { result ≡ start self 6 }
    {
        self.barriers_start() + self.mutators * self.ring
    }

    pub(crate) fn works_start(self) -> u32
        requires { AllInRange self }
        ensures { result ≡ start self 7 }
    {
        self.flags_start() + self.servers
    }

    pub(crate) fn ghosts_start(self) -> u32
        requires { AllInRange self }
        ensures { result ≡ start self 8 }
    {
        self.works_start() + self.servers * self.ring
    }

    pub(crate) fn notices_start(self) -> u32
        requires { AllInRange self }
        ensures { result ≡ start self 9 }
    {
        self.ghosts_start() + self.servers * self.servers * self.ring
    }

    pub(crate) fn tablet_gates_start(self) -> u32
        requires { AllInRange self }
        ensures { result ≡ start self 10 }
    {
        self.notices_start() + self.servers * self.ring
    }

    /// Where the entries start, after six areas with a word for each tablet.
    pub(crate) fn entries_start(self) -> u32
        requires { AllInRange self }
        ensures { result ≡ start self 16 }
    {
        self.tablet_gates_start() + 6 * self.all_tablets()
    }

    pub(crate) fn regions_start(self) -> u32
        requires { AllInRange self }
        ensures { result ≡ start self 17 }
    {
        self.entries_start() + self.all_entries()
    }

    /// The words of all areas.
    pub(crate) fn all_words(self) -> u32
        requires { AllInRange self }
        ensures { result ≡ total self }
    {
        self.regions_start() + self.servers * (self.tablets + self.spare) * self.words
    }

    /// Where the areas start that are read and written most.
    pub(crate) fn starts(self) -> Starts
        requires { AllInRange self }
        ensures { result ≡ starts_of self }
    {
        Starts {
            tablet_gates: self.tablet_gates_start(),
            entries: self.entries_start(),
            regions: self.regions_start(),
            all_words: self.all_words(),
        }
    }
}
