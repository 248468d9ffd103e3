//! The collector.
#![tactic(auto)]

mod barriers;
mod choosing;
mod collector;
mod forwarding;
mod idling;
mod kept;
mod noticing;
mod pausing;
mod regions;
mod stage;

pub use collector::Collector;
pub use kept::Kept;
pub use mako_choice::{Candidate, Chooser, Used};
pub use regions::Role;
pub use stage::{
    BarrierStage, ChoiceStage, CollectStage, ForwardStage, Gift, IdleStage, NoticeStage, Pause,
    PauseStage,
};
