//! Laws of rings. The functions do nothing; what they ensure is for contracts and proofs.

ghost use Rattle.mako_ring.specs.Contents.{PutAppends, TakeRemovesTheFirst, TakenIsAPrefix};
ghost use Rattle.mako_ring.specs.Examples.{Examples};
ghost use Rattle.mako_ring.specs.Puts.{PutsAnswer};
ghost use Rattle.mako_ring.specs.RingWords.{RingsOnWords};
ghost use Rattle.mako_ring.specs.Takes.{TakesAnswer};
ghost use Rattle.mako_ring.specs.Windows.{WindowsStay};

/// A put appends to the content of a ring, a take removes its first word, and what was taken is the
/// first part of what was put, after every list of puts and takes.
pub fn contents()
    ensures put { PutAppends }
    ensures take { TakeRemovesTheFirst }
    ensures order { TakenIsAPrefix }
{}

/// The same of the rings of the heap, in the list of all words: the store of a put or a take changes
/// what its ring holds, and what no other ring holds.
pub fn words()
    ensures { RingsOnWords }
{}

/// The changes of a window leave a window.
pub fn windows()
    ensures { WindowsStay }
{}

/// When puts and takes give each of their answers.
pub fn answers()
    ensures puts { PutsAnswer }
    ensures takes { TakesAnswer }
{}

/// Worked examples of contents and windows.
pub fn examples()
    ensures { Examples }
{}
