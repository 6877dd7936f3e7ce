//! The answers to a script: record by record, and to one that is handed in piece by piece.
#![tactic(auto)]

mod dialog;
mod next;
mod numbers;

pub use dialog::{Dialog, Stop};
pub use next::answer_next;
