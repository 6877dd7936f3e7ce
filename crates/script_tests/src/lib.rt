//! Tests of whole scripts with their answers, of records and texts, of runs over torn streams, of pieces of scripts, of sessions, and of
//! words of the command line, by public calls alone. They stand in a crate of their own, so that no crate that has code is proved a
//! second time for them.
#![tactic(auto)]

#[cfg(test)]
mod answers;
#[cfg(test)]
mod asked_again;
#[cfg(test)]
mod chains;
#[cfg(test)]
mod counted;
#[cfg(test)]
mod faults;
#[cfg(test)]
mod full_chains;
#[cfg(test)]
mod limits;
#[cfg(test)]
mod paths;
#[cfg(test)]
mod pieces;
#[cfg(test)]
mod places;
#[cfg(test)]
mod polygons;
#[cfg(test)]
mod readings;
#[cfg(test)]
mod refusals;
#[cfg(test)]
mod runs;
#[cfg(test)]
mod scripts;
#[cfg(test)]
mod std_streams;
#[cfg(test)]
mod strange_records;
#[cfg(test)]
mod streams;
#[cfg(test)]
mod versions;
#[cfg(test)]
mod views;
#[cfg(test)]
mod words;
