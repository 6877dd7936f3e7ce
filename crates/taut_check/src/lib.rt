//! Whether a list of points is a taut chain of a ring, and if not, the first rule that it breaks.
#![tactic(auto)]

mod bend;
mod chain;
mod sight;
mod verdict;

pub use sight::Sight;
pub use verdict::{Verdict, check, check_from};
