//! What the rule is told once.

/// The pieces with which each worker starts. It is made to lay the words out and let go.
#[derive(Drop)]
pub struct Setup {
    pub seeds: Vec<u32>,
}
