//! Where the collector stands.

use mako_words::{Name, NoticeWord};

/// Where the collector stands. Cycles are numbered from 1.
#[derive(Clone, Copy)]
pub enum CollectStage {
    /// No cycle runs.
    Idle(IdleStage),
    /// The gates of the mutators are shut, or opened again after the snapshot.
    Pausing(PauseStage),
    /// A name goes into the work ring of its server.
    Forwarding(ForwardStage),
    /// Names are taken from the barrier rings.
    Barriers(BarrierStage),
    /// Next it looks whether the slot at the tail of this server's work ring was emptied.
    Emptying(u32),
    /// The servers are polled for completion.
    Polling,
    /// Tablets are chosen, and get their new regions.
    Choosing(ChoiceStage),
    /// The notices of the servers are taken.
    Noticing(NoticeStage),
    Ended,
}

/// Where the collector stands while no cycle runs.
#[derive(Clone, Copy)]
pub enum IdleStage {
    /// Next it loads the demand word.
    LoadingDemand,
    /// It looks whether all mutators are at their end.
    LookingFinished,
    /// Next it stores the phase Stop.
    StoringStop,
}

/// What a pause is for.
#[derive(Clone, Copy)]
pub enum Pause {
    /// The snapshot, at the beginning of a cycle.
    Snapshot,
    /// The choice of tablets, once completion is told again.
    Choice,
}

/// Where a pause stands. Numbers without a name are those of mutators.
#[derive(Clone, Copy)]
pub enum PauseStage {
    /// Next it sets the shut bit of the mutator's gate.
    Shutting(Pause, u32),
    /// It looks whether the mutator's gate counts nobody.
    Draining(Pause, u32),
    /// Next it loads a root.
    LoadingRoot { mutator: u32, root: u32 },
    /// Next it stores the phase Trace: the snapshot.
    StoringTrace,
    /// Next it takes the shut bit of the mutator's gate away.
    Opening(u32),
}

/// Where the forwarding of a name stands.
#[derive(Clone, Copy)]
pub enum ForwardStage {
    /// It looks whether the slot at the head of the window is empty.
    Looking(Name),
    /// Next it stores the name there.
    Storing(Name),
}

/// Where a round of looks at the barrier rings stands.
#[derive(Clone, Copy)]
pub enum BarrierStage {
    /// Next it loads the slot at the position in this mutator's ring.
    Loading(u32),
    /// It found this name there, and clears the slot.
    Clearing(u32, Name),
}

/// A chosen tablet's former region, and the spare region that becomes its home.
#[derive(Clone, Copy)]
pub struct Gift {
    pub former: u32,
    pub region: u32,
}

/// Where the choice of tablets stands. Places are those of tablets among their server's, and numbers
/// those of chosen tablets in the order of choice.
#[derive(Clone, Copy)]
pub enum ChoiceStage {
    LoadingLive { server: u32, place: u32 },
    /// So many words of the tablet are live.
    LoadingTop { server: u32, place: u32, live: u32 },
    LoadingHome(usize),
    StoringLeaving(usize, Gift),
    StoringHome(usize, Gift),
    StoringTop(usize),
    /// Next it stores the phase Evac.
    StoringEvac,
    /// Next it takes the shut bit of this mutator's gate away.
    Opening(u32),
}

/// Where the taking of notices stands.
#[derive(Clone, Copy)]
pub enum NoticeStage {
    /// It looks whether this server has put a notice.
    Looking(u32),
    /// It found this notice, and clears the slot.
    Clearing(u32, NoticeWord),
    /// Next it stores the phase Idle: the cycle is finished.
    StoringIdle,
}
