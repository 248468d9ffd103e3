//! Laws of the machine of `new`, over whole trails. The functions do nothing; what they ensure is for contracts and
//! proofs.

ghost use Rattle.mako_alloc.specs.Causes.{EntriesTell, PassedAreFull, RankIsSmall, ResultsAreCaused};
ghost use Rattle.mako_alloc.specs.Standings.{StandsAsShown, EndsAsShown};

/// A result comes only where the trail shows its cause, and a tablet is passed on from without a note
/// only where the trail shows that it was full.
pub fn results()
    ensures causes { ResultsAreCaused }
    ensures passed { PassedAreFull }
{}

/// An entry is taken for free exactly where it is not taken and has a generation left.
pub fn entries()
    ensures { EntriesTell }
{}

/// At most `entries + 6` steps at each tablet, and 20 beyond them.
pub fn ranks()
    ensures { RankIsSmall }
{}

/// At every moment, what a `new` has of gates and turns is what its trail took and did not give back.
pub fn standings()
    ensures trail { StandsAsShown }
    ensures end { EndsAsShown }
{}
