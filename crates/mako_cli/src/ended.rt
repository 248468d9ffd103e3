//! How a command ended.

use mako_model::Front;

/// How a command ended: the exit status of the program, and the front of the run. The front is empty where no script
/// was run.
#[derive(Drop)]
pub struct Ended {
    pub status: u8,
    pub front: Front,
}
