//! The sides of the relative hull of some points in a simple polygon, and their round, from the paths between them.
#![tactic(auto)]

mod comparison;
mod hull;
mod laws;
mod rounds;
mod table;

pub use comparison::path_turn;
pub use hull::sides;
pub use laws::one_round;
pub use rounds::round;
pub use table::ChainTable;
