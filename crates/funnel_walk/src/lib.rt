//! The taut chain through a sleeve, by the funnel.
#![tactic(auto)]

mod chain;
mod funnel;
mod room;

pub use chain::walk;
pub use funnel::Funnel;
pub use room::FunnelBox;
