//! All seats in one state: what each machine keeps of itself and of words beside the groups of the invariant, how that
//! is at the start of a script, and what it tells.
#![tactic(auto)]

pub mod laws;
