//! What a run came to.

use crate::cycles::Cycles;
use crate::front::Front;
use crate::reply::Reply;

/// What a run came to: for each mutator the replies to its calls, in order, and the finished cycles.
#[derive(Drop)]
pub struct Outcome {
    pub replies: Vec<Vec<Reply>>,
    pub cycles: Cycles,
    pub front: Front,
}
