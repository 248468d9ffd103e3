//! The answer for want of memory.

/// There was not memory enough. Nothing else is meant by it.
#[derive(Clone, Copy, Debug, PartialEq, Eq)]
pub struct Memory;
