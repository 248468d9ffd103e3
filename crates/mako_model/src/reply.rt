//! The replies to calls.

use mako_words::{Name, Value};

/// The reply to a call.
#[derive(Clone, Copy, Debug, PartialEq, Eq)]
pub enum Reply {
    /// The name of the object that a `New` made.
    Made(Name),
    /// There was no room for a new object.
    Full,
    /// The value that was set, read or shown.
    Value(Value),
    Done,
    /// The root that should name an object holds null or a number.
    NoRef,
    /// The object has no field of that number.
    NoField,
    /// The cycle that was waited for.
    Cycle(u32),
    /// There are no cycles left.
    Spent,
}
