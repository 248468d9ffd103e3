//! Laws of all seats that sit in one state. The functions do nothing; what they ensure is for contracts and proofs.

ghost use Rattle.mako_sitting.specs.Openings.{OpeningsSit};
ghost use Rattle.mako_sitting.specs.Telling.{SittingAlone, SittingAnswer, SittingAnswerToEnd, SittingApart};
ghost use Rattle.mako_sitting.specs.Telling.{SittingEpochs, SittingFreed, SittingMarks, SittingMayWrite};
ghost use Rattle.mako_sitting.specs.Telling.{SittingOneWriter, SittingRecords, SittingReplies};

/// Before the first step of any script all seats sit.
pub fn openings_sit()
    ensures { OpeningsSit }
{}

/// Where all seats sit, the front answers the script, to its end once each mutator is at its end; each mutator has the
/// replies of the history; and each finished cycle freed exactly the names that died in it.
pub fn fronts_tell()
    ensures answers { SittingAnswer }
    ensures end { SittingAnswerToEnd }
    ensures replies { SittingReplies }
    ensures freed { SittingFreed }
{}

/// Each taken entry has its record, and records of two entries share no word. While a server copies records of a
/// tablet, nobody is admitted there; who writes records of a tablet may do so, and is one seat at most.
pub fn records_tell()
    ensures each { SittingRecords }
    ensures apart { SittingApart }
    ensures alone { SittingAlone }
    ensures may { SittingMayWrite }
    ensures one { SittingOneWriter }
{}

/// Where tracing is complete, the marked names are exactly the good ones; and while servers evacuate, a taken entry
/// has the epoch of the cycle or its name is dead.
pub fn marks_tell()
    ensures marks { SittingMarks }
    ensures epochs { SittingEpochs }
{}
