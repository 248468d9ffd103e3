//! What a step of a machine tells the history.

use crate::point::Point;

/// What a step of a machine tells the history.
#[derive(Clone, Copy, Debug, PartialEq, Eq)]
pub enum Event {
    Nothing,
    /// The step decided a call.
    Answered(Point),
    /// The step took the snapshot of this cycle.
    Snapped(u32),
    /// The step finished this cycle.
    Finished(u32),
}
