//! How far a seat has come.

/// How far a seat has come with its program.
#[derive(Clone, Copy, Debug, PartialEq, Eq)]
pub enum Place {
    /// Before the call with this number, from 0, or before the end where there is no such call.
    Before(u32),
    /// Between the first step of the call with this number and its last.
    Within(u32),
    /// A server or the collector, which has no program and is not at its end.
    Serving,
    Ended,
}
