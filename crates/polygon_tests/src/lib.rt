//! What the calls on points, fractions, polygons and their triangles answer, by tables of worked cases: those of the crates below
//! `geo_session`. There are tests alone, so that no crate that has code is proved a second time for them.
#![tactic(auto)]

#[cfg(test)]
mod chains;
#[cfg(test)]
mod combs;
#[cfg(test)]
mod fractions;
#[cfg(test)]
mod guard_classes;
#[cfg(test)]
mod half_planes;
#[cfg(test)]
mod kernels;
#[cfg(test)]
mod lists;
#[cfg(test)]
mod meetings;
#[cfg(test)]
mod meshed;
#[cfg(test)]
mod monotone_pieces;
#[cfg(test)]
mod named;
#[cfg(test)]
mod pairs;
#[cfg(test)]
mod path_turns;
#[cfg(test)]
mod places;
#[cfg(test)]
mod points;
#[cfg(test)]
mod polygons;
#[cfg(test)]
mod rationals;
#[cfg(test)]
mod reading;
#[cfg(test)]
mod ring_lists;
#[cfg(test)]
mod segments;
#[cfg(test)]
mod sequences;
#[cfg(test)]
mod tables;
#[cfg(test)]
mod triangles;
#[cfg(test)]
mod triangulations;
#[cfg(test)]
mod views;
