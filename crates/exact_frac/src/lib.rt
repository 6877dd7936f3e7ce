//! Fractions of whole numbers in lowest terms.
#![tactic(auto)]

mod frac;

pub use frac::Frac;
