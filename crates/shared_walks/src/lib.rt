//! The taut chains from one point to several, by walks that are shared.
//! It is for speed alone. The plain call is `funnel_walk::walk` for each point, and the contract says what that call would append.
//! It buys: `hull` of 64 points at the ends of a comb takes 2.4 to 2.9 x 10^8 instructions in seven orders of the points, and up to
//! 2.1 x 10^9 when walks serve the points on their way but start over at each other point (callgrind, 30 November 2026).
#![tactic(auto)]

mod front;
mod marks;
mod outward;
mod paths;
mod serving;
mod walks;

pub use paths::{Stops, paths_from};
