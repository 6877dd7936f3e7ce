//! Laws of funnels, of chains that bend round reflex vertices, and of bends.
#![tactic(auto)]

mod laws;

pub use laws::{dead_ends, no_closed_chain, one_bent_chain, one_taut_chain};
