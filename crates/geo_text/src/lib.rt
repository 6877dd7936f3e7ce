//! The records of a script as commands, and the texts of the answers.
#![tactic(auto)]

mod command;
mod coordinates;
mod ending;
mod fields;
mod laws;
mod limits;
mod number;
mod points;
mod put;
mod reading;
mod script;
mod takes;
mod version;
mod word;

pub use command::{Bad, Command};
pub use ending::{Ending, ROOM};
pub use laws::one_reading;
pub use limits::Limits;
pub use points::Points;
pub use put::{put_bad, put_hom, put_index, put_line_end, put_pt, put_word};
pub use reading::command_in_numbers;
pub use script::Script;
pub use version::Version;
pub use word::Word;
