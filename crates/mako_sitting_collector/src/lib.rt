//! The steps of the collector among all seats: each keeps what stands of all of them.
#![tactic(auto)]

pub mod laws;
