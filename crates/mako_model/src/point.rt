//! The points of a history.

use crate::call::Call;
use crate::reply::Reply;

/// A point of a history: a call with its reply, or the snapshot of a cycle.
#[derive(Clone, Copy, Debug, PartialEq, Eq)]
pub enum Point {
    Did {
        mutator: u8,
        call: Call,
        reply: Reply,
    },
    /// The pause before tracing, at which the roots were taken. Cycles are numbered from 1.
    Snap {
        cycle: u32,
    },
}
