//! `geo` for C: plain numbers and bytes in and out, and a handle of a script that is handed in piece by piece. `geo.h` declares
//! these calls, and `docs/C.md` says how a program links them.
#![tactic(auto)]

mod ask;
mod counts;
mod desk;
mod few;
mod fill;
mod fractions;
mod handle;
mod loose;
mod many;
mod numbers;
mod point;
mod questions;
mod script;
mod session;
mod status;
#[cfg(test)]
mod tests;

pub use counts::GeoCounts;
pub use desk::Desk;
pub use fractions::GeoFraction;
pub use handle::GeoSession;
pub use point::GeoPoint;
