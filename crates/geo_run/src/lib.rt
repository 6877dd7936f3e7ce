//! Whole runs: a script is read and answered, or the line of a comb is written.
#![tactic(auto)]

mod comb_run;
mod run;
mod sure;

pub use run::{RunFault, geo_main};
pub use sure::{sure_sink_main, sure_source_main};
