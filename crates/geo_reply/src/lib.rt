//! What commands answer, as values, and the lines of each.
#![tactic(auto)]

mod items;
mod lines;
mod reply;
mod row;

pub use lines::put_reply;
pub use reply::{Before, Reply, Side};
pub use row::Row;
