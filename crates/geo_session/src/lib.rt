//! What a run holds between two records, and the answer to each command.
#![tactic(auto)]

mod ask;
mod grown;
mod held;
mod hull;
mod laws;
mod pairs;
mod parts;
mod paths;
mod session;
mod span;
mod verdict;

pub use laws::{one_answer, one_output, one_reply};
pub use session::Session;
