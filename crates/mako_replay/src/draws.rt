//! The words of a generator, as places among seats.

ghost use Rattle.std.specs.Prelude.{◌≡◌, ◌<◌, ◌%◌};
ghost use Rattle.rand_core.specs.Pcg32Seed.{pcg32_seed};
ghost use Rattle.rand_pcg.specs.Lcg.{Lcg};
ghost use Rattle.rand_pcg.specs.Pcg.{pcg32, pcg32_of_seed};
ghost use Rattle.mako_replay.specs.Standing.{IsAhead};

use rand_core::SeedableRng;
use rand_core::utils::NextWord;
use rand_pcg::Lcg64Xsh32;

/// The words of a generator. One is drawn ahead, so that a processor can find the next seat while the step before it
/// is still made.
#[derive(Drop)]
pub(crate) struct Draws {
    generator: Lcg64Xsh32,
    /// The word drawn ahead.
    pub(crate) word: u32,
    /// Its place among the seats that are not at their end.
    pub(crate) place: usize,
}

/// The place that a word draws among so many.
fn place_among(word: u32, count: usize) -> usize
    ensures { 0 < count → result ≡ word % count }
{
    if count == 0 { 0 } else { word as usize % count }
}

impl Draws {
    /// The draws of a seed, for so many places.
    pub(crate) fn new(seed: u64, count: usize) -> Draws
        ensures { IsAhead result (pcg32_of_seed (pcg32_seed 16 seed)) count }
    {
        let mut generator = Lcg64Xsh32::seed_from_u64(seed);
        let word = generator.next_word();
        Draws {
            generator,
            word,
            place: place_among(word, count),
        }
    }

    /// Takes the place drawn ahead, and draws the next.
    pub(crate) fn take(&mut self, count: usize) -> usize
        ensures place { result ≡ self.old.place }
        ensures next { (left : Lcg) → IsAhead self.old left count → IsAhead self.new (pcg32 left).1 count }
        ensures drawn { 0 < count → self.new.place < count }
    {
        let place = self.place;
        self.word = self.generator.next_word();
        self.place = place_among(self.word, count);
        place
    }

    /// The place of the same word among so many.
    pub(crate) fn recount(&mut self, count: usize)
        ensures same { self.new ≡ record self.old { place = self.new.place } }
        ensures place { 0 < count → self.new.place ≡ self.old.word % count }
    {
        self.place = place_among(self.word, count);
    }
}
