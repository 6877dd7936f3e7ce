//! The words of the command line, and what they ask a run for.
#![tactic(auto)]

mod words;

pub use words::{Asked, WordsFault, read_words};
