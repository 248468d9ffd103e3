//! States of a core: all words, the machine of each seat and the front; the states to which a core comes from its start
//! by steps of any seats; and what is read of a seat. There are definitions and lemmas alone, for the crates above.
#![tactic(auto)]
