//! Which words the seats may write. The function does nothing; what it ensures is for contracts and proofs.

ghost use Rattle.mako_writes.specs.Writes.{CollectorsWrite, MutatorsWrite, ServersWrite};

/// A step of a seat leaves every word that is not named here. A mutator writes its own gate, roots and barrier slots,
/// the demand and the finished word, and of tablets gates, turns, tops, entries and records. A server writes its own
/// flags, notices and incoming slots, those that it sends into, and of its own tablets gates, leavings, live words,
/// tops and entries, and records. The collector writes the phase, the gates of mutators, flags, the slots of barrier,
/// work and notice rings, and of tablets homes, tops and leavings.
pub fn seats_leave_the_rest()
    ensures mutators { MutatorsWrite }
    ensures servers { ServersWrite }
    ensures collector { CollectorsWrite }
{}
